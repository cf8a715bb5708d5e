//! Help and bad words.

use reg_cli::run_words;
use std::alloc::{AllocError, Global};
use std::test::Fail;

fn texts(alloc: Global, words: &[&str]) -> Result<Vec<String>, AllocError> {
    let mut list = Vec::new(alloc);
    for word in words {
        list.push(String::from_str(alloc, word)?)?;
    }
    Ok(list)
}

#[test]
fn bad_words_and_help(rt: HostRuntime) -> Result<(), Fail> {
    let alloc = rt.alloc();
    for (words, status) in [
        (["registry_cli", "--help"].as_slice(), 0),
        (["registry_cli", "line", "--help"].as_slice(), 0),
        (["registry_cli", "help", "line"].as_slice(), 0),
        (["registry_cli"].as_slice(), 2),
        (["registry_cli", "lines"].as_slice(), 2),
        (["registry_cli", "line", "x"].as_slice(), 2),
        (["registry_cli", "line", "--db", "x"].as_slice(), 2),
    ] {
        let list = texts(alloc, words)?;
        let exit = run_words(&rt, list.as_slice());
        assert_eq!(rt; exit.status, status);
        assert!(rt; exit.message.is_empty());
    }
    Ok(())
}
