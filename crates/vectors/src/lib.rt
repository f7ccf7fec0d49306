// Requests against what the Rust module sends: every expected text of `sends` was printed by aya 0.16.0's own code over a scripted
// socket, and none by this repository. And the edges of a row of attributes.
#![tactic(auto)]

ghost use Rattle.std.specs.Prelude.{IfOk, IsTrue};

#[cfg(test)]
mod tests {
    use reader::fault::AttributeFault;
    use reader::row::NlAttrs;
    use requests::fault::ArgumentFault;
    use requests::handle::TcHandle;
    use requests::mode::XdpMode;
    use requests::request::{Hook, Key, Program, Request, SetXdp};
    use std::alloc::Global;
    use std::fmt::Debug;
    use std::test::Fail;

    // What a test says of two values that had to be the same.
    #[derive(Debug, Drop)]
    struct Differ<T> {
        found: T,
        expected: T,
    }

    // Fails a test whose fact does not hold. It is no `assert!`, which ends the process: nothing here may.
    fn check(holds: bool) -> Result<(), Fail>
        ensures { IfOk result (λ _. IsTrue holds) }
    {
        if holds {
            Ok(())
        } else {
            Err("it does not hold")?
        }
    }

    // Fails a test whose two values are not the same, and says both.
    fn check_eq<T: PartialEq + Debug + Drop>(found: T, expected: T) -> Result<(), Fail> {
        if found == expected {
            return Ok(());
        }
        Err(Differ { found, expected })?
    }

    fn set_xdp(
        interface: u32,
        descriptor: Option<u32>,
        expected: Option<u32>,
        mode: XdpMode,
    ) -> Request<'static> {
        Request::SetXdp(SetXdp {
            interface,
            descriptor,
            expected,
            mode,
        })
    }

    fn add_clsact(interface: u32) -> Request<'static> {
        Request::AddClsact { interface }
    }

    fn list(interface: u32, parent: TcHandle) -> Request<'static> {
        Request::List(Hook { interface, parent })
    }

    // An attach that leaves its priority and handle to the other end.
    fn attach<'a>(name: &'a [u8], class: Option<TcHandle>) -> Request<'a> {
        Request::Attach(
            Key {
                interface: 2,
                parent: TcHandle::of_bits(0xfffffff2),
                priority: 0,
                handle: TcHandle::of_bits(0),
            },
            Program {
                descriptor: 7,
                name,
                class,
            },
        )
    }

    // Writes a request, and compares it with what the Rust sends; then reads it back, and writes it again.
    fn sends(heap: Global, request: Request<'_>, expected: &str) -> Result<(), Fail> {
        let mut out = [0xa5u8; 512];
        let n = request.write(&mut out)?;
        check(n <= 500)?;
        check_eq(hex::encode(heap, &out[0..n])?.as_str(), expected)?;
        check_eq(out[n], 0xa5)?;
        let back = Request::read(&out[0..n]).ok_or("no request")?;
        let mut again = [0u8; 512];
        let m = back.write(&mut again)?;
        check(m <= 512)?;
        check_eq(hex::encode(heap, &again[0..m])?.as_str(), expected)
    }

    #[test]
    fn attach_1(rt: HostRuntime) -> Result<(), Fail> {
        let heap = rt.alloc();
        sends(
            heap,
            attach(b"order", None),
            "4c0000002c000d060100000000000000000000000200000000000000f2ffffff0003000008000100627066002000028008000600070000000a0007006f726465720000000800080001000000",
        )?;
        sends(
            heap,
            attach(b"order", Some(TcHandle::of_bits(0x00010001))),
            "540000002c000d060100000000000000000000000200000000000000f2ffffff00030000080001006270660028000280080003000100010008000600070000000a0007006f726465720000000800080001000000",
        )?;
        sends(
            heap,
            attach(b"", None),
            "480000002c000d060100000000000000000000000200000000000000f2ffffff0003000008000100627066001c000280080006000700000005000700000000000800080001000000",
        )?;
        sends(
            heap,
            attach(b"xxx", None),
            "480000002c000d060100000000000000000000000200000000000000f2ffffff0003000008000100627066001c000280080006000700000008000700787878000800080001000000",
        )
    }

    #[test]
    fn attach_2(rt: HostRuntime) -> Result<(), Fail> {
        let heap = rt.alloc();
        sends(
            heap,
            attach(b"xxxx", None),
            "4c0000002c000d060100000000000000000000000200000000000000f2ffffff0003000008000100627066002000028008000600070000000900070078787878000000000800080001000000",
        )?;
        sends(
            heap,
            Request::Attach(
                Key {
                    interface: 2147483647,
                    parent: TcHandle::of_bits(0xfffffff3),
                    priority: 65535,
                    handle: TcHandle::of_bits(0xffffffff),
                },
                Program {
                    descriptor: 2147483647,
                    name: b"order",
                    class: Some(TcHandle::of_bits(0xffffffff)),
                },
            ),
            "540000002c000d06010000000000000000000000ffffff7ffffffffff3ffffff0003ffff08000100627066002800028008000300ffffffff08000600ffffff7f0a0007006f726465720000000800080001000000",
        )
    }

    #[test]
    fn long_name(rt: HostRuntime) -> Result<(), Fail> {
        let heap = rt.alloc();
        sends(
            heap,
            attach(&[110; 256], Some(TcHandle::of_bits(0x00010001))),
            "500100002c000d060100000000000000000000000200000000000000f2ffffff0003000008000100627066002401028008000300010001000800060007000000050107006e6e6e6e6e6e6e6e6e6e6e6e6e6e6e6e6e6e6e6e6e6e6e6e6e6e6e6e6e6e6e6e6e6e6e6e6e6e6e6e6e6e6e6e6e6e6e6e6e6e6e6e6e6e6e6e6e6e6e6e6e6e6e6e6e6e6e6e6e6e6e6e6e6e6e6e6e6e6e6e6e6e6e6e6e6e6e6e6e6e6e6e6e6e6e6e6e6e6e6e6e6e6e6e6e6e6e6e6e6e6e6e6e6e6e6e6e6e6e6e6e6e6e6e6e6e6e6e6e6e6e6e6e6e6e6e6e6e6e6e6e6e6e6e6e6e6e6e6e6e6e6e6e6e6e6e6e6e6e6e6e6e6e6e6e6e6e6e6e6e6e6e6e6e6e6e6e6e6e6e6e6e6e6e6e6e6e6e6e6e6e6e6e6e6e6e6e6e6e6e6e6e6e6e6e6e6e6e6e6e6e6e6e6e6e6e6e6e6e6e6e6e6e6e6e6e6e6e6e6e6e6e6e6e6e6e6e6e6e6e6e6e6e6e6e6e6e6e6e6e6e6e6e6e6e6e000000000800080001000000",
        )
    }

    #[test]
    fn replace_remove_list_1(rt: HostRuntime) -> Result<(), Fail> {
        let heap = rt.alloc();
        sends(
            heap,
            Request::Replace(
                Key {
                    interface: 2,
                    parent: TcHandle::of_bits(0xfffffff2),
                    priority: 49152,
                    handle: TcHandle::of_bits(0x00000001),
                },
                Program {
                    descriptor: 7,
                    name: b"order",
                    class: None,
                },
            ),
            "4c0000002c000d000100000000000000000000000200000001000000f2ffffff000300c008000100627066002000028008000600070000000a0007006f726465720000000800080001000000",
        )?;
        sends(
            heap,
            Request::Replace(
                Key {
                    interface: 2,
                    parent: TcHandle::of_bits(0xfffffff2),
                    priority: 3,
                    handle: TcHandle::of_bits(0x00000009),
                },
                Program {
                    descriptor: 7,
                    name: b"order",
                    class: Some(TcHandle::of_bits(0x00000000)),
                },
            ),
            "540000002c000d000100000000000000000000000200000009000000f2ffffff00030300080001006270660028000280080003000000000008000600070000000a0007006f726465720000000800080001000000",
        )?;
        sends(
            heap,
            Request::Remove(Key {
                interface: 2,
                parent: TcHandle::of_bits(0xfffffff2),
                priority: 49152,
                handle: TcHandle::of_bits(0x00000001),
            }),
            "240000002d0005000100000000000000000000000200000001000000f2ffffff000300c0",
        )?;
        sends(
            heap,
            Request::Remove(Key {
                interface: 2,
                parent: TcHandle::of_bits(0x00000000),
                priority: 65535,
                handle: TcHandle::of_bits(0xffffffff),
            }),
            "240000002d00050001000000000000000000000002000000ffffffff000000000003ffff",
        )
    }

    #[test]
    fn replace_remove_list_2(rt: HostRuntime) -> Result<(), Fail> {
        let heap = rt.alloc();
        sends(
            heap,
            list(2, TcHandle::of_bits(0xfffffff2)),
            "240000002e0001030100000000000000000000000200000000000000f2ffffff00000000",
        )?;
        sends(
            heap,
            add_clsact(2),
            "3000000024000506010000000000000000000000020000000000fffff1ffffff000000000b000100636c736163740000",
        )
    }

    #[test]
    fn xdp_1(rt: HostRuntime) -> Result<(), Fail> {
        let heap = rt.alloc();
        sends(
            heap,
            set_xdp(2, Some(7), None, XdpMode::Default),
            "340000001300050001000000000000000000000002000000000000000000000014002b8008000100070000000800030001000000",
        )?;
        sends(
            heap,
            set_xdp(2, Some(7), Some(9), XdpMode::Default),
            "3c000000130005000100000000000000000000000200000000000000000000001c002b80080001000700000008000300100000000800080009000000",
        )?;
        sends(
            heap,
            set_xdp(2, None, Some(7), XdpMode::Default),
            "3c000000130005000100000000000000000000000200000000000000000000001c002b8008000100ffffffff08000300100000000800080007000000",
        )?;
        sends(
            heap,
            set_xdp(2, Some(7), None, XdpMode::Skb),
            "340000001300050001000000000000000000000002000000000000000000000014002b8008000100070000000800030003000000",
        )
    }

    #[test]
    fn xdp_2(rt: HostRuntime) -> Result<(), Fail> {
        let heap = rt.alloc();
        sends(
            heap,
            set_xdp(2, Some(7), Some(9), XdpMode::Skb),
            "3c000000130005000100000000000000000000000200000000000000000000001c002b80080001000700000008000300120000000800080009000000",
        )?;
        sends(
            heap,
            set_xdp(2, Some(7), None, XdpMode::Driver),
            "340000001300050001000000000000000000000002000000000000000000000014002b8008000100070000000800030005000000",
        )?;
        sends(
            heap,
            set_xdp(2, None, Some(7), XdpMode::Driver),
            "3c000000130005000100000000000000000000000200000000000000000000001c002b8008000100ffffffff08000300140000000800080007000000",
        )?;
        sends(
            heap,
            set_xdp(2, Some(7), None, XdpMode::Hardware),
            "340000001300050001000000000000000000000002000000000000000000000014002b8008000100070000000800030009000000",
        )
    }

    #[test]
    fn xdp_3(rt: HostRuntime) -> Result<(), Fail> {
        let heap = rt.alloc();
        sends(
            heap,
            set_xdp(2, Some(7), Some(9), XdpMode::Hardware),
            "3c000000130005000100000000000000000000000200000000000000000000001c002b80080001000700000008000300180000000800080009000000",
        )?;
        sends(
            heap,
            set_xdp(2, None, None, XdpMode::Default),
            "340000001300050001000000000000000000000002000000000000000000000014002b8008000100ffffffff0800030001000000",
        )
    }

    const KEY: Key = Key {
        interface: 2,
        parent: TcHandle::AUTO_ASSIGN,
        priority: 0,
        handle: TcHandle::AUTO_ASSIGN,
    };

    const ORDER: Program<'static> = Program {
        descriptor: 7,
        name: b"order",
        class: None,
    };

    // Refused, in the order of the checks, and the buffer is left as it was.
    fn refuses(request: Request<'_>, out: &mut [u8], fault: ArgumentFault) -> Result<(), Fail> {
        check_eq(request.write(out), Err(fault))?;
        check(out.iter().all(|b| *b == 0xa5))
    }

    #[test]
    fn refused() -> Result<(), Fail> {
        let mut out = [0xa5u8; 75];
        let far = Key {
            interface: 0,
            ..KEY
        };
        let high = Program {
            descriptor: 0x8000_0000,
            ..ORDER
        };
        let zero = Program {
            name: b"or\0er",
            ..ORDER
        };
        let long = Program {
            name: &[110; 257],
            ..ORDER
        };
        refuses(
            Request::Attach(far, high),
            &mut out,
            ArgumentFault::Interface(0),
        )?;
        refuses(
            Request::Attach(KEY, high),
            &mut out,
            ArgumentFault::Descriptor(0x8000_0000),
        )?;
        refuses(
            Request::Attach(KEY, zero),
            &mut out,
            ArgumentFault::ZeroInName,
        )?;
        refuses(
            Request::Attach(KEY, long),
            &mut out,
            ArgumentFault::LongName(257),
        )?;
        let short = ArgumentFault::ShortBuffer {
            size: 75,
            expected: 76,
        };
        refuses(Request::Attach(KEY, ORDER), &mut out, short)
    }

    // The first attribute of a row, by its payload.
    fn first(row: &[u8]) -> Option<Result<&[u8], AttributeFault>> {
        let first = NlAttrs::new(row).next();
        first.map(|read| read.map(|attr| attr.data))
    }

    fn faults(row: &[u8], expected: AttributeFault, number: u8) -> Result<(), Fail> {
        check_eq(first(row), Some(Err(expected)))?;
        check_eq(expected.number(), number)
    }

    // One payload byte takes a row of 8 bytes, with its padding; a row of 5 has none, and is refused.
    #[test]
    fn row_edges() -> Result<(), Fail> {
        check_eq(first(&[5, 0, 7, 0, 0x61, 0, 0, 0]), Some(Ok(b"a")))?;
        let past = AttributeFault::Past {
            size: 1,
            expected: 4,
        };
        faults(&[5, 0, 7, 0, 0x61], past, 21)?;
        faults(&[3, 0, 7, 0], AttributeFault::Length(3), 20)?;
        let cut = AttributeFault::Cut {
            size: 3,
            expected: 4,
        };
        faults(&[4, 0, 7], cut, 19)?;
        check(first(&[]).is_none())
    }

    // The sizes: with and without a class, and the longest name.
    #[test]
    fn sizes() -> Result<(), Fail> {
        let class = Program {
            class: Some(TcHandle::new(1, 1)),
            ..ORDER
        };
        let longest = Program {
            name: &[110; 256],
            ..class
        };
        check_eq(Request::Attach(KEY, ORDER).size(), Ok(76))?;
        check_eq(Request::Attach(KEY, class).size(), Ok(84))?;
        check_eq(Request::Attach(KEY, longest).size(), Ok(336))?;
        check_eq(Request::Remove(KEY).size(), Ok(36))
    }

    // Bytes that are no request: one flag, one byte more, a length that is off, padding that is not zero.
    #[test]
    fn no_request() -> Result<(), Fail> {
        let mut out = [0u8; 76];
        Request::Attach(KEY, ORDER).write(&mut out)?;
        check(Request::read(&out).is_some())?;
        check(Request::read(&out[0..75]).is_none())?;
        out[67] = 1;
        check(Request::read(&out).is_none())?;
        out[67] = 0;
        out[7] = 4;
        check(Request::read(&out).is_none())
    }
}
