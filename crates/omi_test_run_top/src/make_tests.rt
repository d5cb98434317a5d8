//! Runs of `make` through the top call, with a writing or a put that may fail.

use omi_fixture_calls::{call, run};
use omi_outside::{Call, Status};
use std::alloc::{AllocError, Global};
use std::process::Abort;
use std::test::Fail;

/// The text of `make 10`.
const TEXT: &str = "threads 4
func leaf
  work
end
func node
  task leaf
  task leaf
  taskwait
end
func team
  repeat 10 node
end
func main
  parallel team num 4
end
";

#[test]
fn a_made_workload(rt: HostRuntime) -> Result<(), Fail> {
    let done = run(rt.alloc(), &["make", "10", "m"], "")?;
    assert_eq!(rt; done.status, Status::Success);
    assert_eq!(rt; done.out.bytes(), b"made 10 tasks 80 by done\n".as_slice());
    assert_eq!(rt; done.files.bytes("other"), Some(b"stays".as_slice()));
    let text = done.files.bytes("m").ok_or("no script")?;
    assert_eq!(rt; text, TEXT.as_bytes());
    Ok(())
}

/// What `make` leaves of its script where these calls of writing and putting fail: status 4, and nothing is put.
fn expect_failed(
    rt: &impl Abort,
    alloc: Global,
    writes: &[(Call, u64)],
    puts: &[u64],
    left: Option<&[u8]>,
) -> Result<(), AllocError> {
    let line = ["make", "10", "m"];
    let done = call(alloc, &line, ("", None), &[], writes, puts)?;
    assert_eq!(rt; done.status, Status::WriteFault);
    assert_eq!(rt; done.out.bytes(), b"".as_slice());
    assert_eq!(rt; done.files.bytes("m"), left);
    Ok(())
}

#[test]
fn failing_writes_and_puts(rt: HostRuntime) -> Result<(), Fail> {
    let alloc = rt.alloc();
    expect_failed(&rt, alloc, &[(Call::Create, 1)], &[], None)?;
    expect_failed(&rt, alloc, &[(Call::Append, 1)], &[], Some(b""))?;
    expect_failed(&rt, alloc, &[], &[1], Some(TEXT.as_bytes()))?;
    Ok(())
}
