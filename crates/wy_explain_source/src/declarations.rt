//! Declarations in the list of nodes.
use crate::expressions::put_all;
use crate::marks::{Marks, Sort};
use crate::nodes::{Class, NOWHERE, Nodes, Role, Span};
use crate::statements::put_block;
use crate::types::{name_behind, put_type};
use std::alloc::Global;
use wy_ast::{Alias, Decl, Expr, Function, Method, NoMemory, Param, Program, Property, Stmt, Ty};

/// The nodes of a program, each behind its parent, in the order in which they are written.
pub fn nodes_of(alloc: Global, program: &Program, marks: &Marks) -> Result<Nodes, NoMemory> {
    let mut nodes = Nodes::new(alloc);
    for decl in program.decls.as_slice() {
        match decl {
            Decl::Alias(alias) => put_alias(alias, marks, &mut nodes)?,
            Decl::Function(function) => put_function(function, marks, &mut nodes)?,
            Decl::Method(method) => put_method(method, marks, &mut nodes)?,
            Decl::Property(property) => put_property(property, marks, &mut nodes)?,
        }
    }
    Ok(nodes)
}

// A declaration, which takes its head: what stands before its clauses and its body.
fn put_decl(class: Class, at: u32, marks: &Marks, nodes: &mut Nodes) -> Result<usize, NoMemory> {
    let node = nodes.put(class, Role::Whole, at, NOWHERE)?;
    nodes.spread(
        node,
        Span {
            from: at,
            to: head_end(marks, at),
        },
    );
    nodes.name(node, name_behind(marks, at));
    Ok(node)
}

// The end of the last mark before the first clause, colon or line end that stands in no bracket.
fn head_end(marks: &Marks, at: u32) -> u32 {
    let mut end = at;
    let mut deep = 0usize;
    for mark in marks.all() {
        if mark.span.from < at {
            continue;
        }
        match mark.sort {
            Sort::Open => deep = deep.saturating_add(1),
            Sort::Close => deep = deep.saturating_sub(1),
            Sort::Clause | Sort::Colon | Sort::LineEnd => {
                if deep == 0 {
                    return end;
                }
            }
            _ => {}
        }
        end = mark.span.to;
    }
    end
}

fn put_alias(alias: &Alias, marks: &Marks, nodes: &mut Nodes) -> Result<(), NoMemory> {
    let node = put_decl(Class::Alias, alias.at, marks, nodes)?;
    match &alias.variable {
        Some(_) => put_named(Class::Variable, &alias.ty, marks, nodes, node)?,
        None => {
            let _span = put_type(&alias.ty, marks, nodes, Role::Type, node)?;
        }
    }
    put_all(alias.clauses.as_slice(), marks, nodes, Role::Where, node)
}

// A type with a name behind it.
fn put_named(
    class: Class,
    ty: &Ty,
    marks: &Marks,
    nodes: &mut Nodes,
    parent: usize,
) -> Result<(), NoMemory> {
    let node = nodes.put(class, Role::Operand, ty.at, parent)?;
    let span = put_type(ty, marks, nodes, Role::Type, node)?;
    let name = name_behind(marks, span.to);
    nodes.spread(
        node,
        Span {
            from: span.from,
            to: name.to,
        },
    );
    nodes.name(node, name);
    Ok(())
}

fn put_params(
    params: &[Param],
    marks: &Marks,
    nodes: &mut Nodes,
    parent: usize,
) -> Result<(), NoMemory> {
    for param in params {
        put_named(Class::Param, &param.ty, marks, nodes, parent)?;
    }
    Ok(())
}

fn put_output(
    ty: &Ty,
    is_named: bool,
    marks: &Marks,
    nodes: &mut Nodes,
    parent: usize,
) -> Result<(), NoMemory> {
    if is_named {
        return put_named(Class::Output, ty, marks, nodes, parent);
    }
    let _span = put_type(ty, marks, nodes, Role::Type, parent)?;
    Ok(())
}

fn put_function(function: &Function, marks: &Marks, nodes: &mut Nodes) -> Result<(), NoMemory> {
    let node = put_decl(Class::Function, function.at, marks, nodes)?;
    put_params(function.params.as_slice(), marks, nodes, node)?;
    let is_named = function.result_name.is_some();
    put_output(&function.result, is_named, marks, nodes, node)?;
    put_rest(
        function.preconditions.as_slice(),
        function.postconditions.as_slice(),
        function.body.as_slice(),
        marks,
        nodes,
        node,
    )
}

fn put_method(method: &Method, marks: &Marks, nodes: &mut Nodes) -> Result<(), NoMemory> {
    let node = put_decl(Class::Method, method.at, marks, nodes)?;
    put_params(method.params.as_slice(), marks, nodes, node)?;
    match &method.result {
        Some(result) => put_output(&result.0, result.1.is_some(), marks, nodes, node)?,
        None => {}
    }
    put_rest(
        method.preconditions.as_slice(),
        method.postconditions.as_slice(),
        method.body.as_slice(),
        marks,
        nodes,
        node,
    )
}

// The contract and the body.
fn put_rest(
    preconditions: &[Expr],
    postconditions: &[Expr],
    body: &[Stmt],
    marks: &Marks,
    nodes: &mut Nodes,
    parent: usize,
) -> Result<(), NoMemory> {
    put_all(preconditions, marks, nodes, Role::Requires, parent)?;
    put_all(postconditions, marks, nodes, Role::Ensures, parent)?;
    put_block(body, marks, nodes, Role::Body, parent)
}

fn put_property(property: &Property, marks: &Marks, nodes: &mut Nodes) -> Result<(), NoMemory> {
    let node = put_decl(Class::Property, property.at, marks, nodes)?;
    put_params(property.params.as_slice(), marks, nodes, node)?;
    put_all(property.clauses.as_slice(), marks, nodes, Role::Where, node)
}
