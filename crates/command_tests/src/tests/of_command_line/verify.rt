//! What a verification is asked for.
use crate::tests::of_command_line::{assert_asked, assert_refused};

#[test]
fn a_verification_needs_a_journal_alone(rt: HostRuntime) {
    let rows = [
        (
            "verify --journal a.journal",
            "Verify(Verify { journal: \"a.journal\", table: None, revisions: [], \
             seal: Seal { made: false, kept: None }, \
             expect_cards: None, expect_capacity: None, gate: None })",
        ),
        (
            "verify --journal a.journal --table a.toml --seal b.toml c.toml",
            "Verify(Verify { journal: \"a.journal\", table: Some(\"a.toml\"), \
             revisions: [\"b.toml\", \"c.toml\"], seal: Seal { made: true, kept: None }, \
             expect_cards: None, expect_capacity: None, gate: None })",
        ),
    ];
    assert_asked(&rt, rt.alloc(), &rows);
    assert_refused(&rt, rt.alloc(), &["verify"]);
}

#[test]
fn a_journal_is_held_against_a_number_and_a_digest(rt: HostRuntime) {
    let rows = [
        (
            "verify --journal a --sealed 0 \
             000102030405060708090a0b0c0d0e0f101112131415161718191A1B1C1D1E1F",
            "Verify(Verify { journal: \"a\", table: None, revisions: [], \
             seal: Seal { made: false, kept: Some(Sealed { touches: 0, digest: [0, 1, 2, 3, 4, \
             5, 6, 7, 8, 9, 10, 11, 12, 13, 14, 15, 16, 17, 18, 19, 20, 21, 22, 23, 24, 25, 26, \
             27, 28, 29, 30, 31] }) }, \
             expect_cards: None, expect_capacity: None, gate: None })",
        ),
        (
            "verify --journal a --sealed 17 \
             000102030405060708090a0b0c0d0e0f101112131415161718191A1B1C1D1E1F",
            "Verify(Verify { journal: \"a\", table: None, revisions: [], \
             seal: Seal { made: false, kept: Some(Sealed { touches: 17, digest: [0, 1, 2, 3, 4, \
             5, 6, 7, 8, 9, 10, 11, 12, 13, 14, 15, 16, 17, 18, 19, 20, 21, 22, 23, 24, 25, 26, \
             27, 28, 29, 30, 31] }) }, \
             expect_cards: None, expect_capacity: None, gate: None })",
        ),
        (
            "verify --journal a --sealed 1000000 \
             000102030405060708090a0b0c0d0e0f101112131415161718191A1B1C1D1E1F",
            "Verify(Verify { journal: \"a\", table: None, revisions: [], \
             seal: Seal { made: false, kept: Some(Sealed { touches: 1000000, digest: [0, 1, 2, 3, \
             4, 5, 6, 7, 8, 9, 10, 11, 12, 13, 14, 15, 16, 17, 18, 19, 20, 21, 22, 23, 24, 25, 26, \
             27, 28, 29, 30, 31] }) }, \
             expect_cards: None, expect_capacity: None, gate: None })",
        ),
    ];
    assert_asked(&rt, rt.alloc(), &rows);
    let refused = [
        "verify --journal a --sealed 1000001 \
         000102030405060708090a0b0c0d0e0f101112131415161718191A1B1C1D1E1F",
        "verify --journal a --sealed +1 \
         000102030405060708090a0b0c0d0e0f101112131415161718191A1B1C1D1E1F",
        "verify --journal a --sealed -1 \
         000102030405060708090a0b0c0d0e0f101112131415161718191A1B1C1D1E1F",
        "verify --journal a --sealed x \
         000102030405060708090a0b0c0d0e0f101112131415161718191A1B1C1D1E1F",
        "verify --journal a --sealed 1 00",
        "verify --journal a --sealed 1 x",
    ];
    assert_refused(&rt, rt.alloc(), &refused);
}

#[test]
fn a_journal_is_held_against_numbers_that_it_may_have(rt: HostRuntime) {
    let rows = [
        (
            "verify --journal a --expect-cards 100000 --expect-capacity 1000000",
            "Verify(Verify { journal: \"a\", table: None, revisions: [], \
             seal: Seal { made: false, kept: None }, \
             expect_cards: Some(100000), expect_capacity: Some(1000000), gate: None })",
        ),
        (
            "verify --journal a --gate 0",
            "Verify(Verify { journal: \"a\", table: None, revisions: [], \
             seal: Seal { made: false, kept: None }, \
             expect_cards: None, expect_capacity: None, gate: Some(0) })",
        ),
        (
            "verify --journal a --gate 65535 --expect-capacity 1 --seal",
            "Verify(Verify { journal: \"a\", table: None, revisions: [], \
             seal: Seal { made: true, kept: None }, \
             expect_cards: None, expect_capacity: Some(1), gate: Some(65535) })",
        ),
    ];
    assert_asked(&rt, rt.alloc(), &rows);
    let refused = [
        "verify --journal a --expect-cards 0",
        "verify --journal a --expect-cards 100001",
        "verify --journal a --expect-cards +7",
        "verify --journal a --expect-capacity 0",
        "verify --journal a --expect-capacity 1000001",
        "verify --journal a --expect-capacity +7",
        "verify --journal a --gate 65536",
        "verify --journal a --gate +7",
        "verify --journal a --gate -1",
        "verify --journal a --gate x",
        "verify --journal a --gate 7 --table a.toml",
        "verify --journal a --gate 7 b.toml",
    ];
    assert_refused(&rt, rt.alloc(), &refused);
}

#[test]
fn a_seal_is_held_against_and_made_at_once_and_whole(rt: HostRuntime) {
    let rows = [
        (
            "verify --journal a --seal --sealed 1 \
         000102030405060708090a0b0c0d0e0f101112131415161718191A1B1C1D1E1F",
            "Verify(Verify { journal: \"a\", table: None, revisions: [], \
         seal: Seal { made: true, kept: Some(Sealed { touches: 1, digest: [0, 1, 2, 3, 4, \
             5, 6, 7, 8, 9, 10, 11, 12, 13, 14, 15, 16, 17, 18, 19, 20, 21, 22, 23, 24, 25, 26, \
             27, 28, 29, 30, 31] }) }, \
             expect_cards: None, expect_capacity: None, gate: None })",
        ),
        (
            "verify --journal a --table a.toml --sealed 1 \
         000102030405060708090a0b0c0d0e0f101112131415161718191A1B1C1D1E1F b.toml",
            "Verify(Verify { journal: \"a\", table: Some(\"a.toml\"), revisions: [\"b.toml\"], \
         seal: Seal { made: false, kept: Some(Sealed { touches: 1, digest: [0, 1, 2, 3, 4, \
             5, 6, 7, 8, 9, 10, 11, 12, 13, 14, 15, 16, 17, 18, 19, 20, 21, 22, 23, 24, 25, 26, \
             27, 28, 29, 30, 31] }) }, \
             expect_cards: None, expect_capacity: None, gate: None })",
        ),
    ];
    assert_asked(&rt, rt.alloc(), &rows);
    let refused = [
        "verify --journal a.journal --sealed",
        "verify --journal a.journal --sealed 1",
        "verify --journal a.journal b.toml",
    ];
    assert_refused(&rt, rt.alloc(), &refused);
}
