ghost use Rattle.std.specs.Prelude.{◌≡◌, Some};
ghost use Rattle.requests.specs.Modes.{mode_flags, mode_text};

use records::numbers::{XDP_FLAGS_DRV_MODE, XDP_FLAGS_HW_MODE, XDP_FLAGS_SKB_MODE};
use std::fmt;

// How an XDP program is run: as the driver allows, by the network stack, by the driver, or by the card.
#[derive(Clone, Copy, PartialEq, Eq, Hash, Debug)]
pub enum XdpMode {
    Default,
    Skb,
    Driver,
    Hardware,
}

impl XdpMode {
    pub const ALL: [XdpMode; 4] = [
        XdpMode::Default,
        XdpMode::Skb,
        XdpMode::Driver,
        XdpMode::Hardware,
    ];

    // The mode's name.
    pub fn text(self) -> &'static str
        ensures { result.now ≡ mode_text self }
    {
        match self {
            XdpMode::Default => "default",
            XdpMode::Skb => "skb",
            XdpMode::Driver => "driver",
            XdpMode::Hardware => "hardware",
        }
    }

    // The mode's flag in a request.
    pub fn flags(self) -> u32
        ensures { result ≡ mode_flags self }
    {
        match self {
            XdpMode::Default => 0,
            XdpMode::Skb => XDP_FLAGS_SKB_MODE,
            XdpMode::Driver => XDP_FLAGS_DRV_MODE,
            XdpMode::Hardware => XDP_FLAGS_HW_MODE,
        }
    }
}

impl fmt::Display for XdpMode {
    ghost output = { λ m. Some (mode_text m) };

    fn fmt<W: fmt::Write>(&self, f: &mut fmt::Formatter<W>) -> fmt::Result {
        f.write_str(self.text())
    }
}
