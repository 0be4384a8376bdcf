//! Rows in which files and sinks fail, or where a save does: words and files, and the status and the texts that follow by hand. Rows
//! on ample files and sinks stand in stored runs of the program.
use crate::test_files::FILES;
use std::alloc::{AllocError, Global};
use std::num::ParseIntError;
use std::str::Split;
use std::test::Fail;
use wy_headline::run_words;
use wy_port::{MemFiles, MemSink, have_different_names};

fn file(alloc: Global, name: &str, text: &str) -> Result<(String, Vec<u8>), AllocError> {
    Ok((
        String::from_str(alloc, name)?,
        Vec::from_slice(alloc, text.as_bytes())?,
    ))
}

fn short_files(alloc: Global) -> Result<Vec<(String, Vec<u8>)>, AllocError> {
    let mut files = Vec::new(alloc);
    for (name, text) in &FILES {
        files.push(file(alloc, name, text)?)?;
    }
    Ok(files)
}

fn words_of(alloc: Global, text: &str) -> Result<Vec<String>, AllocError> {
    let mut words = Vec::new(alloc);
    for word in text.split(' ') {
        if !word.is_empty() {
            words.push(String::from_str(alloc, word)?)?;
        }
    }
    Ok(words)
}

// Rows parted by `%`: the number of the load or save that fails, from 0; the room of each sink; words; and then the status, what the sinks
// took, and how the file `o` begins, if it is saved.
const ROWS: &str = concat!(
    "0|99|99|fmt inc.wy|4||wy: inc.wy: load failed\n|%",
    "9|3|99|fmt inc.wy|5|fun||%",
    "9|99|4|fmt tab.wy|5||tab.|%",
    "9|9|99|dis abs.wy|5|routine 0||%",
    "0|9|99|run inc.wy inc.cert inc (5)|4||wy: inc.wy: load failed\n|%",
    "1|9|99|run inc.wy inc.cert inc (5)|4||wy: inc.cert: load failed\n|%",
    "9|1|99|run inc.wy inc.cert inc (5)|5|6||%",
    "9|9|4|run inc.wy inc.cert inc (100)|5||wy: |%",
    "9|3|99|run hello.wy none six ()|5|abc||%",
    "9|4|99|run hello.wy none hello (3)|5|hi 3||%",
    "9|6|99|run hello.wy none hello (3)|5|hi 3\n3||%",
    "9|99|3|run share.wy none keep ([1,2]) --stats|5|[1, 2]\n|cop|%",
    "9|99|3|run inc.wy bad.cert inc (5)|5||bad|%",
    "9|9|99|check inc.wy none|5|accepted ||%",
    "1|99|99|check inc.wy inc.cert|4||wy: inc.cert: load failed\n|%",
    "9|10|99|big 1 7|5|functions ||%",
    "9|4000|4000|prove inc.wy o|0|accepted 3 conditions\n||wycert 1\n%",
    "1|4000|4000|prove inc.wy o|5||wy: o: save failed\n|%",
    "0|4000|4000|prove inc.wy o|4||wy: inc.wy: load failed\n|%",
    "9|4000|4000|prove inc.wy o --budget 0|1||inc.wy:4:14: condition 1 range: spent 0\ninc.wy:4:14: condition 2 range: spent 0\ninc.wy:4:5: condition 3 ensures: spent 0\nrefused: 3 conditions, 0 open, 3 spent\n|wycert 1\nend\n%",
    "9|4000|4000|prove tab.wy o|1||tab.wy:3:2: BadIndent\n|%",
    "9|4000|4000|again inc.wy o|0|accepted 3 conditions, 0 kept, 3 searched\n||wycache 1\nfor 4\n%",
    "0|4000|4000|again inc.wy o|4||wy: inc.wy: load failed\n|%",
    "1|4000|4000|again inc.wy o|4||wy: o: load failed\n|%",
    "2|4000|4000|again inc.wy o|5||wy: o: save failed\n|%",
    "9|9|4000|again inc.wy o|5|accepted ||wycache 1\n%",
    "9|4000|4000|again inc.wy o --budget 0|1||inc.wy:4:14: condition 1 range: spent 0\ninc.wy:4:14: condition 2 range: spent 0\ninc.wy:4:5: condition 3 ensures: spent 0\nrefused: 3 conditions, 0 open, 3 spent\n|wycache 1\nend\n%",
    "9|4000|4000|again inc.wy none|0|accepted 3 conditions, 0 kept, 3 searched\n||%",
    "9|4000|4000|again no.wy o|3||wy: no.wy: absent\n|",
);

// the next field
fn field<'a>(fields: &mut Split<'a, char>) -> &'a str {
    match fields.next() {
        Some(field) => field,
        None => "",
    }
}

fn number(fields: &mut Split<char>) -> u32 {
    let parsed: Result<u32, ParseIntError> = field(fields).parse();
    match parsed {
        Ok(n) => n,
        Err(_) => 0,
    }
}

#[test]
fn rows(rt: HostRuntime) -> Result<(), Fail> {
    let alloc = rt.alloc();
    for row in ROWS.split('%') {
        let mut fields = row.split('|');
        let all = short_files(alloc)?;
        assert!(rt; have_different_names(&all));
        let mut fails = Vec::new(alloc);
        fails.push(number(&mut fields) as u64)?;
        let mut files = MemFiles::new(all, fails);
        let out_room = number(&mut fields) as usize;
        let err_room = number(&mut fields) as usize;
        let mut out = MemSink::new(alloc, out_room, 7, Vec::new(alloc))?;
        let mut err = MemSink::new(alloc, err_room, 7, Vec::new(alloc))?;
        let words = words_of(alloc, field(&mut fields))?;
        let status = run_words(&rt, alloc, &words, &mut files, &mut out, &mut err);
        assert_eq!(rt; status as u32, number(&mut fields), "{}", row);
        assert_eq!(rt; out.bytes(), field(&mut fields).as_bytes(), "{}", row);
        assert_eq!(rt; err.bytes(), field(&mut fields).as_bytes(), "{}", row);
        let begins = field(&mut fields).as_bytes();
        let saved = files.bytes("o").unwrap_or(b"");
        assert!(rt; saved.starts_with(begins), "{}", row);
        assert_eq!(rt; saved.is_empty(), begins.is_empty(), "{}", row);
    }
    Ok(())
}

// What was found is accepted again without a search.
#[test]
fn found_certificates_are_accepted(rt: HostRuntime) -> Result<(), Fail> {
    let alloc = rt.alloc();
    let all = short_files(alloc)?;
    assert!(rt; have_different_names(&all));
    let mut files = MemFiles::new(all, Vec::new(alloc));
    let mut out = MemSink::new(alloc, 4000, 99, Vec::new(alloc))?;
    let mut err = MemSink::new(alloc, 4000, 99, Vec::new(alloc))?;
    for words in ["prove max.wy max.cert", "check max.wy max.cert --budget 0"] {
        let words = words_of(alloc, words)?;
        let status = run_words(&rt, alloc, &words, &mut files, &mut out, &mut err);
        assert_eq!(rt; status, 0);
    }
    assert_eq!(rt; err.bytes(), b"".as_slice());
    Ok(())
}

// What one worker finds and what eight find is saved as the same bytes, and accepted again.
#[test]
fn one_worker_and_eight_save_the_same(rt: HostRuntime) -> Result<(), Fail> {
    let alloc = rt.alloc();
    let all = short_files(alloc)?;
    assert!(rt; have_different_names(&all));
    let mut files = MemFiles::new(all, Vec::new(alloc));
    let mut out = MemSink::new(alloc, 4000, 99, Vec::new(alloc))?;
    let mut err = MemSink::new(alloc, 4000, 99, Vec::new(alloc))?;
    for words in [
        "prove max.wy one --workers 1",
        "prove max.wy eight --workers=8",
        "check max.wy eight --budget 0 --workers 3",
    ] {
        let words = words_of(alloc, words)?;
        let status = run_words(&rt, alloc, &words, &mut files, &mut out, &mut err);
        assert_eq!(rt; status, 0);
    }
    assert_eq!(rt; err.bytes(), b"".as_slice());
    let one = files.bytes("one").unwrap_or(b"");
    assert!(rt; !one.is_empty() && one == files.bytes("eight").unwrap_or(b""));
    Ok(())
}
