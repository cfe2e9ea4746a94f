//! The program's lines on standard error, and its exit status. No case can have memory refused, or
//! replicas that are not certified.

use nm_base::MemSink;
use nm_command::Status;
use nm_command::status::IfaceName;
use nm_topology::Refusal;
use std::process::Abort;
use std::test::Fail;

/// A status has this exit status and this line.
fn says(rt: &(impl Abort + AllocGlobal), status: Status, code: u8, line: &str) -> Result<(), Fail> {
    let same = status;
    let mut sink = MemSink::new(rt.alloc(), 64)?;
    assert!(rt; same.say(&mut sink).is_ok(), "{line}");
    assert!(rt; sink.octets() == line.as_bytes(), "{line}");
    assert!(rt; status.code() == code, "{line}");
    Ok(())
}

#[test]
fn a_line_of_each_status(rt: HostRuntime) -> Result<(), Fail> {
    for (status, code, line) in [
        (Status::Done, 0, ""),
        (Status::Usage, 2, "nullsim: usage\n"),
        (Status::NoInterface, 2, "nullsim: no interface\n"),
        (Status::ScriptLine(7), 2, "nullsim: script line 7\n"),
        (Status::Step(12), 2, "nullsim: step 12\n"),
        (
            Status::Topology(Refusal::CutDelay),
            3,
            "nullsim: topology 12\n",
        ),
        (Status::File, 4, "nullsim: file\n"),
        (Status::Memory, 5, "nullsim: memory\n"),
        (Status::NotCertified(4), 6, "nullsim: not certified 4\n"),
        (Status::Stalled, 7, "nullsim: stalled\n"),
        (
            Status::Differs {
                iface: IfaceName::from("a0")?,
                octet: 140,
            },
            8,
            "nullsim: differs a0 140\n",
        ),
    ] {
        says(&rt, status, code, line)?;
    }
    Ok(())
}
