//! The texts of keys and kinds.
use super::assert_same_at;
use door_file::{Key, Kind, RULE_KEYS, Shape};
use std::test::Fail;

#[test]
fn keys_have_their_texts(rt: HostRuntime) -> Result<(), Fail> {
    let texts = [
        "name",
        "gates",
        "kinds",
        "ahead",
        "rate",
        "burst",
        "reserved",
        "connections",
    ];
    for (key, text) in RULE_KEYS.iter().zip(texts.iter()) {
        assert_same_at(&rt, key.text(), *text, *key);
    }
    assert_same_at(&rt, Key::Rule.text(), "rule", Key::Rule);
    assert_same_at(&rt, Key::Rate.shape(), Shape::Whole(1, 1000), Key::Rate);
    Ok(())
}

#[test]
fn kinds_have_their_words(rt: HostRuntime) -> Result<(), Fail> {
    let words = [
        (Kind::Enter, "in"),
        (Kind::Leave, "out"),
        (Kind::TopUp, "top-up"),
        (Kind::Issue, "issue"),
        (Kind::Revise, "revise"),
        (Kind::Enquire, "enquiry"),
    ];
    for (kind, word) in words {
        assert_same_at(&rt, kind.word(), word, kind);
    }
    Ok(())
}
