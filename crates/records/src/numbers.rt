// Numbers of the kernel's headers: linux/netlink.h, linux/rtnetlink.h, linux/pkt_cls.h, linux/if_link.h, linux/pkt_sched.h,
// linux/errno.h.

// message types
pub const NLMSG_ERROR: u16 = 2;

pub const NLMSG_DONE: u16 = 3;

pub const RTM_SETLINK: u16 = 19;

pub const RTM_NEWQDISC: u16 = 36;

pub const RTM_NEWTFILTER: u16 = 44;

pub const RTM_DELTFILTER: u16 = 45;

pub const RTM_GETTFILTER: u16 = 46;

// message flags
pub const NLM_F_REQUEST: u16 = 0x0001;

pub const NLM_F_MULTI: u16 = 0x0002;

pub const NLM_F_ACK: u16 = 0x0004;

pub const NLM_F_ECHO: u16 = 0x0008;

// in a request that asks for a list
pub const NLM_F_DUMP: u16 = 0x0300;

// in a request that adds
pub const NLM_F_REPLACE: u16 = 0x0100;

pub const NLM_F_EXCL: u16 = 0x0200;

pub const NLM_F_CREATE: u16 = 0x0400;

pub const NLM_F_APPEND: u16 = 0x0800;

// in an acknowledgement
pub const NLM_F_CAPPED: u16 = 0x0100;

// message flags, as requests join them
pub const REQUEST_ACK: u16 = NLM_F_REQUEST | NLM_F_ACK;

pub const REQUEST_ACK_ECHO: u16 = REQUEST_ACK | NLM_F_ECHO;

pub const REQUEST_ACK_EXCL_CREATE: u16 = REQUEST_ACK | NLM_F_EXCL | NLM_F_CREATE;

pub const REQUEST_ACK_ECHO_EXCL_CREATE: u16 = REQUEST_ACK_ECHO | NLM_F_EXCL | NLM_F_CREATE;

pub const REQUEST_DUMP: u16 = NLM_F_REQUEST | NLM_F_DUMP;

// attributes; a nested one has NLA_F_NESTED in its type, and the mask leaves the type alone
pub const NLA_F_NESTED: u16 = 0x8000;

pub const NLA_TYPE_MASK: u16 = 0x3FFF;

pub const NLMSGERR_ATTR_MSG: u16 = 1;

pub const IFLA_XDP: u16 = 43;

pub const IFLA_XDP_NESTED: u16 = NLA_F_NESTED | IFLA_XDP;

pub const IFLA_XDP_FD: u16 = 1;

pub const IFLA_XDP_FLAGS: u16 = 3;

pub const IFLA_XDP_EXPECTED_FD: u16 = 8;

pub const TCA_KIND: u16 = 1;

pub const TCA_OPTIONS: u16 = 2;

pub const TCA_OPTIONS_NESTED: u16 = NLA_F_NESTED | TCA_OPTIONS;

pub const TCA_BPF_CLASSID: u16 = 3;

pub const TCA_BPF_FD: u16 = 6;

pub const TCA_BPF_NAME: u16 = 7;

pub const TCA_BPF_FLAGS: u16 = 8;

// values
pub const XDP_FLAGS_UPDATE_IF_NOEXIST: u32 = 1;

pub const XDP_FLAGS_SKB_MODE: u32 = 2;

pub const XDP_FLAGS_DRV_MODE: u32 = 4;

pub const XDP_FLAGS_HW_MODE: u32 = 8;

pub const XDP_FLAGS_REPLACE: u32 = 16;

pub const TCA_BPF_FLAG_ACT_DIRECT: u32 = 1;

pub const TC_H_CLSACT: u32 = 0xFFFF_FFF1;

pub const TC_H_MIN_INGRESS: u32 = 0xFFF2;

pub const TC_H_MIN_EGRESS: u32 = 0xFFF3;

// all protocols, in network order
pub const ETH_P_ALL: u32 = 0x0300;

// error numbers
pub const EPERM: i32 = 1;

pub const ENOENT: i32 = 2;

pub const EBADF: i32 = 9;

pub const EAGAIN: i32 = 11;

pub const ENOMEM: i32 = 12;

pub const EBUSY: i32 = 16;

pub const EEXIST: i32 = 17;

pub const ENODEV: i32 = 19;

pub const EINVAL: i32 = 22;

pub const ENOSPC: i32 = 28;

pub const ERANGE: i32 = 34;

pub const EMSGSIZE: i32 = 90;

pub const EOPNOTSUPP: i32 = 95;

pub const ENOBUFS: i32 = 105;

// The sequence number of every request, and of what answers it: each request is sent alone, on a socket of its own.
pub const SEQUENCE: u32 = 1;

// The longest datagram that is sent or received.
pub const LONGEST_DATAGRAM: usize = 4096;
