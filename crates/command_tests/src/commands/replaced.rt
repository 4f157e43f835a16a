//! A file that another program replaces between its opening and its lock.
use file_device::WriteLock;
use jbench_files::FileLock;
use std::fs;
use std::test::Fail;

/// Why no write lock is taken of a file that another one has replaced since it was opened.
fn said_of_replaced(rt: &HostRuntime) -> Result<String, Fail> {
    fs::write(rt, "replaced", b"")?;
    fs::write(rt, "replacing", b"")?;
    let file = WriteLock::open(rt, "replaced")?;
    fs::rename(rt, "replacing", "replaced")?;
    match WriteLock::take(rt, "replaced", file) {
        Ok(_) => Ok(String::new(rt.alloc())),
        Err(e) => Ok(format!(in rt.alloc(); "{e}")?),
    }
}

#[test]
fn a_file_that_was_replaced_before_its_lock(rt: HostRuntime) -> Result<(), Fail> {
    let said = said_of_replaced(&rt)?;
    fs::remove_file(&rt, "replaced")?;
    assert_eq!(rt;
        said.as_str(),
        "another program replaced it: its path names another file"
    );
    Ok(())
}
