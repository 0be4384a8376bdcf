//! A source with what an explanation looks at.
use crate::{Class, Marks, NoMemory, Node, Nodes, Role, Source, Span, nodes_of};
use std::alloc::Global;
use wy_ast::Program;
use wy_lex::tokens;

/// A source, its marks, and the nodes of its program; no nodes where it has none.
#[derive(Drop)]
pub struct Seen<'a> {
    pub source: Source<'a>,
    pub marks: Marks,
    pub nodes: Nodes,
}

impl<'a> Seen<'a> {
    /// The source, seen through these two. Where its tokens are refused, there are no marks.
    pub fn of(
        alloc: Global,
        source: Source<'a>,
        program: Option<&Program>,
    ) -> Result<Seen<'a>, NoMemory> {
        let marks = marks_of(alloc, source.bytes)?;
        let nodes = match program {
            Some(program) => nodes_of(alloc, program, &marks)?,
            None => Nodes::new(alloc),
        };
        Ok(Seen {
            source,
            marks,
            nodes,
        })
    }

    /// The bytes of a stretch.
    pub fn text(&self, span: Span) -> &'a [u8] {
        self.source.cut(span)
    }

    /// The number of the line of an offset.
    pub fn line(&self, at: u32) -> u64 {
        self.source.line(at)
    }

    /// The mark at the offset, or one byte.
    pub fn mark_at(&self, at: u32) -> Span {
        match self.marks.at(at) {
            Some(mark) => {
                if mark.span.from == at && !mark.span.is_empty() {
                    return mark.span;
                }
                one_byte(at)
            }
            None => one_byte(at),
        }
    }

    /// The first child of the node that has this role.
    pub fn child(&self, node: usize, role: Role) -> Option<Node> {
        for other in self.nodes.all() {
            if other.parent == node && other.role == role {
                return Some(*other);
            }
        }
        None
    }

    /// The number of the first child of the node that has this role.
    pub fn child_number(&self, node: usize, role: Role) -> Option<usize> {
        let mut number = 0usize;
        for other in self.nodes.all() {
            if other.parent == node && other.role == role {
                return Some(number);
            }
            number = number.saturating_add(1);
        }
        None
    }

    /// How many children of the node have this class.
    pub fn count(&self, node: usize, class: Class) -> u64 {
        let mut count = 0u64;
        for other in self.nodes.all() {
            if other.parent == node && other.class == class {
                count = count.saturating_add(1);
            }
        }
        count
    }

    /// How many children of the node have this role.
    pub fn count_role(&self, node: usize, role: Role) -> u64 {
        let mut count = 0u64;
        for other in self.nodes.all() {
            if other.parent == node && other.role == role {
                count = count.saturating_add(1);
            }
        }
        count
    }

    /// The number of the declaration with this name.
    pub fn decl_named(&self, name: &[u8]) -> Option<usize> {
        let mut number = 0usize;
        for node in self.nodes.all() {
            if node.class.is_decl() && self.text(node.name) == name {
                return Some(number);
            }
            number = number.saturating_add(1);
        }
        None
    }

    /// The number of the declaration that holds the offset: the last that begins at it or before.
    pub fn decl_at(&self, at: u32) -> Option<usize> {
        let mut found = None;
        let mut number = 0usize;
        for node in self.nodes.all() {
            if node.class.is_decl() && node.at <= at {
                found = Some(number);
            }
            number = number.saturating_add(1);
        }
        found
    }

    /// The byte behind the declaration: that where the next one begins, or behind the source.
    pub fn decl_end(&self, decl: usize) -> u32 {
        let mut end = Span::of(0, self.source.bytes.len()).to;
        let at = match self.nodes.get(decl) {
            Some(node) => node.at,
            None => end,
        };
        for node in self.nodes.all() {
            if node.class.is_decl() && node.at > at {
                end = end.min(node.at);
            }
        }
        end
    }

    /// The innermost node at or around this one of which the class is one of a statement; none in a contract.
    pub fn stmt_of(&self, node: usize) -> Option<usize> {
        let mut here = node;
        for _ in 0..4096 {
            let now = self.nodes.get(here)?;
            if now.class.is_stmt() {
                return Some(here);
            }
            here = now.parent;
        }
        None
    }

    /// The innermost loop around the node.
    pub fn loop_of(&self, node: usize) -> Option<usize> {
        let mut here = node;
        for _ in 0..4096 {
            let now = self.nodes.get(here)?;
            if now.class.is_loop() && here != node {
                return Some(here);
            }
            here = now.parent;
        }
        None
    }

    /// Whether the node is the other one, or lies in it.
    pub fn is_in(&self, node: usize, other: usize) -> bool {
        let mut here = node;
        for _ in 0..4096 {
            if here == other {
                return true;
            }
            here = match self.nodes.get(here) {
                Some(now) => now.parent,
                None => return false,
            };
        }
        false
    }

    /// The byte behind the last mark of a node and all that is in it.
    pub fn end_of(&self, node: usize) -> u32 {
        let mut end = 0u32;
        let mut number = 0usize;
        for other in self.nodes.all() {
            if number >= node && self.is_in(number, node) {
                end = end.max(other.span.to);
            }
            number = number.saturating_add(1);
        }
        end
    }

    /// The type that is written for the name in this declaration: that of a parameter, a result or a variable.
    pub fn declared(&self, decl: usize, name: &[u8]) -> Option<Node> {
        let mut number = 0usize;
        for node in self.nodes.all() {
            let is_meant = node.decl == decl && node.class.declares() && !node.class.is_decl();
            if is_meant && self.text(node.name) == name {
                return self.child(number, Role::Type);
            }
            number = number.saturating_add(1);
        }
        None
    }

    /// The type of the result of a function or a method, where it has one.
    pub fn result_type(&self, decl: usize) -> Option<Node> {
        let mut number = 0usize;
        for node in self.nodes.all() {
            if node.parent == decl && node.class == Class::Output {
                return self.child(number, Role::Type);
            }
            number = number.saturating_add(1);
        }
        self.child(decl, Role::Type)
    }
}

fn one_byte(at: u32) -> Span {
    Span {
        from: at,
        to: at.saturating_add(1),
    }
}

// The marks of a source, where its tokens are read.
fn marks_of(alloc: Global, bytes: &[u8]) -> Result<Marks, NoMemory> {
    if bytes.len() >= u32::MAX as usize {
        return Marks::of(alloc, bytes, &[]);
    }
    match tokens(alloc, bytes) {
        Ok(cut) => Marks::of(alloc, bytes, cut.as_slice()),
        Err(_) => Marks::of(alloc, bytes, &[]),
    }
}
