use records::numbers::{
    EBADF, EBUSY, EEXIST, EINVAL, EMSGSIZE, ENOBUFS, ENODEV, ENOENT, ENOSPC, EOPNOTSUPP, EPERM,
    ERANGE,
};

// The name of an errno that a kernel answers to these requests.
pub(crate) fn errno_name(errno: i32) -> &'static str {
    match errno {
        EPERM => "EPERM",
        ENOENT => "ENOENT",
        EBADF => "EBADF",
        EBUSY => "EBUSY",
        EEXIST => "EEXIST",
        ENODEV => "ENODEV",
        EINVAL => "EINVAL",
        ENOSPC => "ENOSPC",
        ERANGE => "ERANGE",
        EMSGSIZE => "EMSGSIZE",
        EOPNOTSUPP => "EOPNOTSUPP",
        ENOBUFS => "ENOBUFS",
        _ => "no name here",
    }
}
