//! The command `replay`, over files by hand, and with what is written worked out by hand.
use super::assert_same_at;
use super::of_console::{FILES, answered};
use line_replay::replay_input;
use reply_book::NameHashing;
use std::test::Fail;

#[test]
fn a_replay_answers_by_the_tables_of_its_words(rt: HostRuntime) -> Result<(), Fail> {
    let alloc = rt.alloc();
    // An issue of card 1, and what it is answered by.
    let issue = "000f0400070000000100000001677b8b28\n";
    let reply = "00148100070000000108000000000000000000000000\n";
    // A line that is no request is answered by fault 1.
    let bad = "0008ff01000000000000\n";
    let rows = [
        ("old.toml", "new.toml", issue, "0", reply),
        ("old.toml", "new.toml", "00\n", "fault run 4 BadLine 1", bad),
        ("old.toml", "none.toml", issue, "fault file", ""),
        ("none.toml", "new.toml", issue, "fault file", ""),
    ];
    for (table, revision, line, status, lines) in rows {
        let (mut reader, mut written) = (line.as_bytes(), Vec::new(alloc));
        let answer = replay_input(
            alloc,
            NameHashing::fixed(),
            &FILES,
            Some(table),
            &[revision],
            10,
            &mut reader,
            &mut written,
        );
        assert_same_at(&rt, answered(alloc, answer)?.as_str(), status, line);
        assert_same_at(&rt, written.as_slice(), lines.as_bytes(), line);
    }
    Ok(())
}
