//! Errors, by the names and numbers of errno(3).

ghost use Rattle.std.specs.Prelude.{◌≡◌, pos};
ghost use Rattle.std.specs.Fmt.{WritesOnOk};
ghost use Rattle.nm_types.specs.Names.{number_of, name_of};

use std::fmt;

/// Why a call is refused.
#[derive(Clone, Copy, Debug, PartialEq, Eq)]
pub enum Errno {
    /// EPERM: the caller lacks the right.
    Eperm,
    /// ENOENT: the process has touched nothing there.
    Enoent,
    /// ESRCH: no such process.
    Esrch,
    /// EIO: a page does not follow the policy that `mbind` sets.
    Eio,
    /// ENOMEM: no frame is free where the page may go, or the machine is at one of its limits.
    Enomem,
    /// EACCES: the node is not allowed.
    Eacces,
    /// EFAULT: no area there, or only the page of zeros.
    Efault,
    /// EBUSY: a page is pinned, or has as many pins as it can have, or a node cannot go offline.
    Ebusy,
    /// ENODEV: no such node, or it is offline.
    Enodev,
    /// EINVAL: an argument is out of its range.
    Einval,
}

impl Errno {
    /// Its number on Linux. The status of a page that failed is this number with a minus sign.
    pub fn number(self) -> i32
        ensures { result ≡ pos (number_of self) }
    {
        match self {
            Errno::Eperm => 1,
            Errno::Enoent => 2,
            Errno::Esrch => 3,
            Errno::Eio => 5,
            Errno::Enomem => 12,
            Errno::Eacces => 13,
            Errno::Efault => 14,
            Errno::Ebusy => 16,
            Errno::Enodev => 19,
            Errno::Einval => 22,
        }
    }

    /// Its name in the manual pages.
    pub fn name(self) -> &'static str
        ensures { result.now ≡ name_of self }
    {
        match self {
            Errno::Eperm => "EPERM",
            Errno::Enoent => "ENOENT",
            Errno::Esrch => "ESRCH",
            Errno::Eio => "EIO",
            Errno::Enomem => "ENOMEM",
            Errno::Eacces => "EACCES",
            Errno::Efault => "EFAULT",
            Errno::Ebusy => "EBUSY",
            Errno::Enodev => "ENODEV",
            Errno::Einval => "EINVAL",
        }
    }
}

/// Its name.
impl fmt::Display for Errno {
    fn fmt<W: fmt::Write>(&self, f: &mut fmt::Formatter<W>) -> fmt::Result
        ensures { WritesOnOk W.write_str_gives f.old result (name_of self.now) f.new }
    {
        f.write_str(self.name())
    }
}
