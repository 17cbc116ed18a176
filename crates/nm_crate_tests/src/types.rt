use nm_types::Errno;
use std::alloc::{AllocError, Global};
use std::test::Fail;

/// Whether a refusal prints as this text.
fn prints(alloc: Global, errno: Errno, text: &str) -> Result<bool, AllocError> {
    let printed = format!(in alloc; "{errno}")?;
    Ok(printed.as_str() == text)
}

#[test]
fn refusals_print_their_names(rt: HostRuntime) -> Result<(), Fail> {
    for (errno, text) in [
        (Errno::Eperm, "EPERM"),
        (Errno::Enoent, "ENOENT"),
        (Errno::Esrch, "ESRCH"),
        (Errno::Eio, "EIO"),
        (Errno::Enomem, "ENOMEM"),
        (Errno::Eacces, "EACCES"),
        (Errno::Efault, "EFAULT"),
        (Errno::Ebusy, "EBUSY"),
        (Errno::Enodev, "ENODEV"),
        (Errno::Einval, "EINVAL"),
    ] {
        assert!(rt; prints(rt.alloc(), errno, text)?, "of {text}");
    }
    Ok(())
}
