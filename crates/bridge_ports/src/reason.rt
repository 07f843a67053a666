//! Why a call on the machine failed.
use std::io::ErrorKind;

/// Why a call on the machine failed, as far as it helps whoever looks after a run. In brackets stand the error numbers
/// of POSIX.1, section 2.3, that come to it.
#[derive(Clone, Copy, Debug, PartialEq, Eq)]
pub enum Reason {
    /// There is no file of this path (ENOENT).
    NotFound,
    /// It is not permitted to whom the process belongs (EACCES, EPERM).
    Denied,
    /// The path is that of a directory (EISDIR).
    Directory,
    /// No address of the host is found.
    Unresolved,
    /// Nobody listens at the address (ECONNREFUSED).
    Refused,
    /// No way leads to the host (EHOSTUNREACH, ENETUNREACH, ENETDOWN).
    Unreachable,
    /// It took longer than the call, or the talk, may take (ETIMEDOUT, EAGAIN).
    TimedOut,
    /// The peer broke the connection off (ECONNRESET, ECONNABORTED).
    Reset,
    /// The other end of a pipe or of a connection takes no more (EPIPE).
    Closed,
    /// Another one listens at the address (EADDRINUSE).
    InUse,
    /// The address is none of this machine (EADDRNOTAVAIL).
    NotHere,
    /// No space is left where it is written to (ENOSPC).
    Full,
    /// Any other cause; and before a call has failed.
    Other,
}

impl Reason {
    /// That of an error of this kind.
    pub fn of(kind: ErrorKind) -> Reason {
        match kind {
            ErrorKind::NotFound => Reason::NotFound,
            ErrorKind::PermissionDenied => Reason::Denied,
            ErrorKind::IsADirectory => Reason::Directory,
            ErrorKind::ConnectionRefused => Reason::Refused,
            ErrorKind::HostUnreachable => Reason::Unreachable,
            ErrorKind::NetworkUnreachable => Reason::Unreachable,
            ErrorKind::NetworkDown => Reason::Unreachable,
            ErrorKind::TimedOut => Reason::TimedOut,
            // A call on a connection that stood still for too long.
            ErrorKind::WouldBlock => Reason::TimedOut,
            ErrorKind::ConnectionReset => Reason::Reset,
            ErrorKind::ConnectionAborted => Reason::Reset,
            ErrorKind::BrokenPipe => Reason::Closed,
            ErrorKind::AddrInUse => Reason::InUse,
            ErrorKind::AddrNotAvailable => Reason::NotHere,
            ErrorKind::StorageFull => Reason::Full,
            _ => Reason::Other,
        }
    }

    /// The reason in words.
    pub fn words(self) -> &'static str {
        match self {
            Reason::NotFound => "there is no such file",
            Reason::Denied => "permission denied",
            Reason::Directory => "it is a directory",
            Reason::Unresolved => "its name is not found",
            Reason::Refused => "connection refused",
            Reason::Unreachable => "unreachable",
            Reason::TimedOut => "timed out",
            Reason::Reset => "connection reset",
            Reason::Closed => "closed at the other end",
            Reason::InUse => "address in use",
            Reason::NotHere => "no address of this machine",
            Reason::Full => "no space left",
            Reason::Other => "the system call failed",
        }
    }
}
