//! Tables of words, and bytes that are no names or no texts.
use model_core::{Name, NoMemory, Text, valid_name};
use std::alloc::Global;
use std::test::Fail;
use word_table::Words;

#[test]
fn equal_words_are_no_table(rt: HostRuntime) -> Result<(), Fail> {
    for (words, is_table) in [
        (["a", "b", "c"], true),
        (["a", "b", "a"], false),
        (["a", "a", "b"], false),
        (["b", "a", "a"], false),
        (["", "a", "aa"], true),
    ] {
        let table: Option<Words<'_, 3>> = Words::check(&words);
        assert_eq!(rt; table.is_some(), is_table);
    }
    Ok(())
}

// Whether these bytes are valid for a name, make one, and make a text.
fn kinds(alloc: Global, bytes: &[u8]) -> Result<(bool, bool, bool), NoMemory> {
    let is_name = Name::check(alloc, bytes)?.is_some();
    let is_text = Text::check(alloc, bytes)?.is_some();
    Ok((valid_name(bytes), is_name, is_text))
}

#[test]
fn bytes_that_are_no_names(rt: HostRuntime) -> Result<(), Fail> {
    for (bytes, is_name, is_text) in [
        (b"\xc3\xa4".as_slice(), true, true),
        (b"a \"b\"\t\x00\r\x7f", false, true),
        (b"a\n", false, false),
        (b"\x80", false, false),
        (b"\xa4\xc3\xa4\xe2\x82\xac", false, false),
        (b"\xc3", false, false),
        (b"\xe2\x82", false, false),
        (b"\xc0\x80", false, false),
        (b"\xed\xa0\x80", false, false),
        (b"\xff", false, false),
    ] {
        let found = kinds(rt.alloc(), bytes)?;
        assert_eq!(rt; found, (is_name, is_name, is_text), "{bytes:?}");
    }
    Ok(())
}
