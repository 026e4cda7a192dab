//! Words that are a command, and what they ask for.
use crate::reading::asked;
use std::test::Fail;

const ROWS: &[(&str, &str)] = &[
    ("check X", "check, X"),
    ("check X Y X", "check, X, Y, X"),
    ("check -", "check, -"),
    ("-- check -x --at=1", "check, -x, --at=1"),
    ("check X -- -- Y", "check, X, --, Y"),
    ("events X", "events, drift 1000, X"),
    ("events X --drift=1 Y", "events, drift 1, X, Y"),
    ("--drift 10000 events X", "events, drift 10000, X"),
    ("report X", "report, drift 1000, X"),
    ("report X Y --drift 7", "report, drift 7, X, Y"),
    ("state --list=A --at=249", "state at 249, list A"),
    ("state --at 249 --list A", "state at 249, list A"),
    ("--at 249 state --list A", "state at 249, list A"),
    ("--list A --at=0 -- state", "state at 0, list A"),
    ("state --list=-x --at 1", "state at 1, list -x"),
    ("state --list - --at 1", "state at 1, list -"),
    ("state --list==B --at 1", "state at 1, list =B"),
    ("--at 1 -- state -x", "state at 1, drift 1000, -x"),
    ("state X --at 2 Y --drift 3", "state at 2, drift 3, X, Y"),
    (
        "state --at 4611686018427387903 --list A",
        "state at 4611686018427387903, list A",
    ),
    ("ask --questions Q --list A", "ask Q, once false, list A"),
    (
        "ask --questions Q --workers 0 --list A",
        "ask Q, once false, list A",
    ),
    (
        "--once ask --workers=0 --questions=-q X",
        "ask -q, once true, drift 1000, X",
    ),
    (
        "ask X --once Y --drift=20 --questions -",
        "ask -, once true, drift 20, X, Y",
    ),
    (
        "path --host 0 --tid 1 --from 0 --to 1 X",
        "path of 1 on 0 from 0 to 1, drift 1000, X",
    ),
    (
        "--to 9 --list=A --host=3 path --from 5 --tid=7",
        "path of 7 on 3 from 5 to 9, list A",
    ),
    (
        "path X --to=4611686018427387903 --from=4611686018427387902 --tid=2147483647 --host=63 Y",
        "path of 2147483647 on 63 from 4611686018427387902 to 4611686018427387903, drift 1000, X, Y",
    ),
    (
        "--drift 5 --from 3 --to 40 --host 10 --tid 20 -- path -x --at",
        "path of 20 on 10 from 3 to 40, drift 5, -x, --at",
    ),
    (
        "make --number 7 --hosts 4 --rounds 6000",
        "make of 7, hosts 4, rounds 6000",
    ),
    (
        "--rounds=1 --number=0 make --hosts=1",
        "make of 0, hosts 1, rounds 1",
    ),
    (
        "make --rounds 100000 --hosts 64 --number 18446744073709551615",
        "make of 18446744073709551615, hosts 64, rounds 100000",
    ),
    (
        "range --list A --from 50 --to 300 --attribute h0/Cpu/1/Irq",
        "range of h0/Cpu/1/Irq from 50 to 300, list A",
    ),
    (
        "--attribute=h63/Thread/2147483647/Call range X --to=4611686018427387903 --from=4611686018427387902 Y --drift 2",
        "range of h63/Thread/2147483647/Call from 4611686018427387902 to 4611686018427387903, drift 2, X, Y",
    ),
    ("disks --list A", "disks, list A"),
    ("--drift 9 -- disks X Y", "disks, drift 9, X, Y"),
];

#[test]
fn words_that_are_a_command(rt: HostRuntime) -> Result<(), Fail> {
    for (line, text) in ROWS {
        let is = asked(rt.alloc(), line)?;
        assert_eq!(rt; is.as_str(), *text, "{line}");
    }
    Ok(())
}
