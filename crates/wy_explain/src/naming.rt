//! What the names in a condition are called.
//!
//! A condition has a new name for each value that a variable gets: `i.7`. In a source's words it is the variable with the line
//! where it got this value: `i@8`; a value that a parameter had at entry has the parameter's name alone.
use std::alloc::Global;
use wy_explain_source::{Class, NoMemory, Node, Page, Seen};

/// A name of a condition: what it is called, and what it stands for.
#[derive(Drop)]
pub struct Called {
    word: Page,
    number: u128,
    is_bound: bool,
    shown: Page,
    /// What the name stands for, before the line; no words for a name that needs none.
    words: &'static [u8],
    line: u64,
}

/// What names are called.
#[derive(Drop)]
pub struct Naming {
    list: Vec<Called>,
}

impl Naming {
    pub fn new(alloc: Global) -> Naming {
        Naming {
            list: Vec::new(alloc),
        }
    }

    /// What the name is called, if it is known.
    pub fn shown(&self, word: &[u8], number: u128, is_bound: bool) -> Option<&[u8]> {
        for called in self.list.as_slice() {
            if called.number == number
                && called.is_bound == is_bound
                && called.word.as_slice() == word
            {
                return Some(called.shown.as_slice());
            }
        }
        None
    }

    // Whether another name is called so.
    fn is_taken(&self, shown: &[u8]) -> bool {
        for called in self.list.as_slice() {
            if called.shown.as_slice() == shown {
                return true;
            }
        }
        false
    }

    /// The number of a quantifier by its word; one that stands for such a number has a prime, and one more for each that is
    /// called so already.
    pub fn call_number(
        &mut self,
        alloc: Global,
        word: &[u8],
        number: u128,
        is_bound: bool,
    ) -> Result<(), NoMemory> {
        let mut shown = Page::new(alloc);
        shown.bytes(word)?;
        if is_bound {
            return self.put(alloc, word, number, true, shown, b"".as_slice(), 0);
        }
        shown.text("'")?;
        for _ in 0..64 {
            if !self.is_taken(shown.as_slice()) {
                break;
            }
            shown.text("'")?;
        }
        self.put(
            alloc,
            word,
            number,
            true,
            shown,
            b": a number of the range of a quantifier".as_slice(),
            0,
        )
    }

    fn put(
        &mut self,
        alloc: Global,
        word: &[u8],
        number: u128,
        is_bound: bool,
        shown: Page,
        words: &'static [u8],
        line: u64,
    ) -> Result<(), NoMemory> {
        let mut own = Page::new(alloc);
        own.bytes(word)?;
        self.list.push(Called {
            word: own,
            number,
            is_bound,
            shown,
            words,
            line,
        })?;
        Ok(())
    }

    /// A value of a variable of this declaration, or of a call's result, that is first spoken of before the place.
    pub fn call(
        &mut self,
        alloc: Global,
        seen: &Seen,
        decl: usize,
        word: &[u8],
        number: u128,
        place: u32,
    ) -> Result<(), NoMemory> {
        let mut shown = Page::new(alloc);
        shown.bytes(word)?;
        if is_entry(seen, decl, word, number) || is_result(seen, decl, word) {
            return self.put(alloc, word, number, false, shown, b"".as_slice(), 0);
        }
        match origin(seen, decl, word, place) {
            Some((node, words)) => {
                let line = seen.line(node.at);
                shown.text("@")?;
                shown.number(line)?;
                if self.is_taken(shown.as_slice()) {
                    shown.text(".")?;
                    shown.whole(i128::try_from(number).unwrap_or(0))?;
                }
                self.put(alloc, word, number, false, shown, words, line)
            }
            None => {
                shown.text(".")?;
                shown.whole(i128::try_from(number).unwrap_or(0))?;
                self.put(alloc, word, number, false, shown, b"".as_slice(), 0)
            }
        }
    }

    /// A sentence for each kind of value that names stand for: the names, what they are, and the line.
    pub fn notes(&self, alloc: Global) -> Result<Vec<Page>, NoMemory> {
        let mut notes: Vec<Page> = Vec::new(alloc);
        let list = self.list.as_slice();
        for number in 0..list.len() {
            let called = &list[number];
            if called.words.is_empty() || is_told(list, number) {
                continue;
            }
            let mut page = Page::new(alloc);
            put_alike(&mut page, list, called)?;
            page.bytes(called.words)?;
            if called.line > 0 {
                page.number(called.line)?;
            }
            page.text(".")?;
            notes.push(page)?;
        }
        Ok(notes)
    }
}

// Whether two names stand for values of one kind and line.
fn are_alike(first: &Called, second: &Called) -> bool {
    first.words == second.words && first.line == second.line
}

// Whether an earlier name stands for a value of the same kind and line.
fn is_told(list: &[Called], number: usize) -> bool {
    let own = match list.get(number) {
        Some(own) => own,
        None => return false,
    };
    let mut passed = 0usize;
    for called in list {
        if passed < number && are_alike(called, own) {
            return true;
        }
        passed = passed.saturating_add(1);
    }
    false
}

// The names that stand for values of the same kind and line.
fn put_alike(page: &mut Page, list: &[Called], called: &Called) -> Result<(), NoMemory> {
    let mut is_first = true;
    for other in list {
        if are_alike(other, called) {
            page.text(if is_first { "" } else { ", " })?;
            page.bytes(other.shown.as_slice())?;
            is_first = false;
        }
    }
    Ok(())
}

// Whether the name is that of a parameter at entry: these come first, one behind the other.
fn is_entry(seen: &Seen, decl: usize, word: &[u8], number: u128) -> bool {
    let mut passed = 0u128;
    for node in seen.nodes.all() {
        let is_param = node.class == Class::Param || node.class == Class::Variable;
        if is_param && node.parent == decl {
            if passed == number {
                return seen.text(node.name) == word;
            }
            passed = passed.saturating_add(1);
        }
    }
    false
}

// Whether the name is that of the result, in a clause.
fn is_result(seen: &Seen, decl: usize, word: &[u8]) -> bool {
    for node in seen.nodes.all() {
        if node.class == Class::Output && node.parent == decl && seen.text(node.name) == word {
            return true;
        }
    }
    false
}

// Where a variable got its last value before the place, with words for it, behind which the line stands.
fn origin(seen: &Seen, decl: usize, word: &[u8], place: u32) -> Option<(Node, &'static [u8])> {
    let mut found = None;
    let mut last = 0u32;
    let mut number = 0usize;
    for node in seen.nodes.all() {
        if node.decl == decl {
            match value_given(seen, number, *node, word) {
                Some((at, words)) => {
                    if at <= place && at >= last {
                        last = at;
                        found = Some((*node, words));
                    }
                }
                None => {}
            }
        }
        number = number.saturating_add(1);
    }
    found
}

// From which place on the variable has a value that this node gives it, with words for that.
fn value_given(
    seen: &Seen,
    number: usize,
    node: Node,
    word: &[u8],
) -> Option<(u32, &'static [u8])> {
    match node.class {
        Class::While | Class::Do | Class::For => {
            if is_assigned_in(seen, number, word)
                || (node.class == Class::For && is_counter(seen, node, word))
            {
                return Some((
                    node.at,
                    b": the value where a test is made by the loop of line ".as_slice(),
                ));
            }
            None
        }
        Class::If => {
            if is_assigned_in(seen, number, word) {
                return Some((
                    seen.end_of(number),
                    b": the value behind the `if` of line ".as_slice(),
                ));
            }
            None
        }
        Class::Switch => {
            if is_assigned_in(seen, number, word) {
                return Some((
                    seen.end_of(number),
                    b": the value behind the `switch` of line ".as_slice(),
                ));
            }
            None
        }
        Class::Declare => {
            if seen.text(node.name) == word {
                return Some((node.at, b": the value that is given in line ".as_slice()));
            }
            None
        }
        Class::Assign => {
            if seen.text(node.name) == word {
                return Some((
                    node.span.to,
                    b": the value that is given in line ".as_slice(),
                ));
            }
            None
        }
        Class::Call | Class::CallStmt => {
            if seen.text(node.name) == word {
                return Some((node.at, b": the result of the call in line ".as_slice()));
            }
            None
        }
        _ => None,
    }
}

// The variables that a `for` is written by.
fn is_counter(seen: &Seen, node: Node, word: &[u8]) -> bool {
    word == b"t".as_slice() || seen.text(node.name) == word
}

fn is_assigned_in(seen: &Seen, stmt: usize, word: &[u8]) -> bool {
    let mut number = 0usize;
    for node in seen.nodes.all() {
        if node.class == Class::Assign && seen.text(node.name) == word && seen.is_in(number, stmt) {
            return true;
        }
        number = number.saturating_add(1);
    }
    false
}
