//! Words that are not UTF-8.
use jbench_words::arguments::{self, Arguments};
use std::alloc::Global;
use std::env::{Env, FillError};
use std::test::Fail;

/// The words of a program.
#[derive(Drop)]
struct GivenArguments<'a> {
    words: &'a [&'a [u8]],
}

impl Env for GivenArguments<'_> {
    fn arg(&self, i: usize, buf: &mut [u8]) -> Result<usize, FillError> {
        match self.words.get(i) {
            Some(word) if word.len() <= buf.len() => {
                buf[..word.len()].copy_from_slice(word);
                Ok(word.len())
            }
            Some(_) => Err(FillError::TooLong),
            None => Err(FillError::NotPresent),
        }
    }

    fn var(&self, _name: &str, _buf: &mut [u8]) -> Result<usize, FillError> {
        Err(FillError::NotPresent)
    }

    fn var_at(&self, _i: usize, _buf: &mut [u8]) -> Result<usize, FillError> {
        Err(FillError::NotPresent)
    }
}

/// A program's words, in brackets, and the first that is not UTF-8.
fn told(alloc: Global, words: &[&[u8]]) -> Result<String, Fail> {
    let arguments: Arguments = arguments::read(&GivenArguments { words }, alloc)?;
    let mut text = String::new(alloc);
    for word in arguments.words() {
        text.push_str("[")?;
        text.push_str(word)?;
        text.push_str("]")?;
    }
    text.push_str(arguments.no_text().unwrap_or(" all are text"))?;
    Ok(text)
}

#[test]
fn words_that_are_no_text(rt: HostRuntime) -> Result<(), Fail> {
    let alloc = rt.alloc();
    let all = told(alloc, &[b"jbench", b"dump", b"a.log"])?;
    assert_eq!(rt; all.as_str(), "[jbench][dump][a.log] all are text");
    let second = told(alloc, &[b"jb\xffench", b"dump", b"a\xff\xfe.log", b"\xff"])?;
    assert_eq!(rt;
        second.as_str(),
        "[jb\u{fffd}ench][dump][a\u{fffd}\u{fffd}.log][\u{fffd}]a\u{fffd}\u{fffd}.log"
    );
    let long = [b'a'; 700];
    let words = told(alloc, &[b"jbench", &long])?;
    assert_eq!(rt; words.len(), 8 + 702 + 13);
    Ok(())
}
