//! The names of fields and the shapes of records in a program.
ghost use Rattle.std.specs.Prelude.{◌≡◌, ◌∷◌, [], IfOk, map, is_some};
ghost use Rattle.wy_core.specs.CoreSeen.{seen_block, seen_core, seen_decl, seen_expr, seen_exprs, seen_fields, seen_option, seen_step, seen_stmt, seen_output, seen_ty, field_tys_of};
ghost use Rattle.wy_core.specs.CoreTree.{exprs_of, routines_of};
ghost use Rattle.wy_code_spec.specs.tables.Tables as spec;

use crate::tables::context::Context;
use crate::tables::table::{Table, list_number, name_number, with_name, with_shape};
use std::alloc::Global;
use wy_code::pieces::NoMemory;
use wy_core::{Core, Decl, Expr, ExprKind, Output, Step, StepKind, Stmt, StmtKind, Ty, TyKind};
use wy_data::Name;
use wy_items::Items;

/// What the code of a program is made by. It goes through each node once, and finds names and shapes
/// that were met by hashing them.
pub fn context_of(alloc: Global, core: &Core) -> Result<Context, NoMemory>
    ensures value { IfOk result (λ c. c ≡ spec.context_of (seen_core core.now)) }
{
    let table = decls_table(alloc, core.decls.as_slice(), Table::new(alloc))?;
    let results = results_of(alloc, core.decls.as_slice())?;
    Ok(Context { table, results })
}

fn results_of(alloc: Global, decls: &[Decl]) -> Result<Items<bool>, NoMemory>
    ensures value { IfOk result (λ r. r ≡ spec.results_of (routines_of (map seen_decl decls.now))) }
{
    let mut results = Items::new(alloc);
    for decl in decls {
        match decl {
            Decl::Alias(_) => (),
            Decl::Routine(routine) => results.push(gives(&routine.result))?,
        }
    }
    Ok(results)
}

fn gives(output: &Option<Output>) -> bool
    ensures value { result ≡ is_some (seen_output output.now) }
{
    match output {
        None => false,
        Some(_) => true,
    }
}

fn decls_table(alloc: Global, decls: &[Decl], table: Table) -> Result<Table, NoMemory>
    ensures value { IfOk result (λ t. t ≡ spec.decls_table (map seen_decl decls.now) table) }
{
    let mut table = table;
    for decl in decls {
        table = decl_table(alloc, decl, table)?;
    }
    Ok(table)
}

fn decl_table(alloc: Global, decl: &Decl, table: Table) -> Result<Table, NoMemory>
    ensures value { IfOk result (λ t. t ≡ spec.decl_table (seen_decl decl.now) table) }
{
    match decl {
        Decl::Alias(alias) => {
            let table = ty_table(alloc, &alias.ty, table)?;
            exprs_table(alloc, alias.clauses.as_slice(), table)
        }
        Decl::Routine(routine) => block_table(alloc, routine.body.as_slice(), table),
    }
}

// ---- types

#[cycle(types)]
fn ty_table(alloc: Global, ty: &Ty, table: Table) -> Result<Table, NoMemory>
    ensures value { IfOk result (λ t. t ≡ spec.ty_table (seen_ty ty.now) table) }
{
    match &ty.kind {
        TyKind::Null => Ok(table),
        TyKind::Bool => Ok(table),
        TyKind::Int => Ok(table),
        TyKind::Any => Ok(table),
        TyKind::Void => Ok(table),
        TyKind::Record(fields) => record_table(alloc, fields.as_slice(), table),
        TyKind::Array(item) => ty_table(alloc, item.get(), table),
        TyKind::Union(left, right) => {
            let table = ty_table(alloc, left.get(), table)?;
            ty_table(alloc, right.get(), table)
        }
        TyKind::Inter(left, right) => {
            let table = ty_table(alloc, left.get(), table)?;
            ty_table(alloc, right.get(), table)
        }
        TyKind::Not(ty) => ty_table(alloc, ty.get(), table),
        TyKind::Named(_) => Ok(table),
        TyKind::Normal(_) => Ok(table),
    }
}

#[cycle(types)]
fn record_table(alloc: Global, fields: &[(Name, Ty)], table: Table) -> Result<Table, NoMemory>
    ensures value { IfOk result (λ t. t ≡ spec.record_table (field_tys_of (map (λ f. (f.0, seen_ty f.1)) fields.now)) table) }
{
    let table = field_tys_table(alloc, fields, table)?;
    with_shape_of(alloc, fields, table)
}

#[cycle(types)]
fn field_tys_table(alloc: Global, fields: &[(Name, Ty)], table: Table) -> Result<Table, NoMemory>
    ensures value { IfOk result (λ t. t ≡ spec.field_tys_table (field_tys_of (map (λ f. (f.0, seen_ty f.1)) fields.now)) table) }
{
    let mut table = table;
    for field in fields {
        table = ty_table(alloc, &field.1, table)?;
    }
    Ok(table)
}

// ---- names and shapes

/// The shape of these fields is in the table, and so are their names.
fn with_shape_of<T>(alloc: Global, fields: &[(Name, T)], table: Table) -> Result<Table, NoMemory>
    ensures value { IfOk result (λ t. t ≡ spec.with_shape (map (λ f. f.0) fields.now) table) }
{
    let table = with_names(alloc, fields, table)?;
    let list = numbers_of(alloc, fields, &table)?;
    with_shape(list, table)
}

/// The names of these fields are in the table.
fn with_names<T>(alloc: Global, fields: &[(Name, T)], table: Table) -> Result<Table, NoMemory>
    ensures value { IfOk result (λ t. t ≡ spec.with_names (map (λ f. f.0) fields.now) table) }
{
    let mut table = table;
    for field in fields {
        table = with_name(alloc, &field.0, table)?;
    }
    Ok(table)
}

/// The numbers of the names of fields.
fn numbers_of<T>(alloc: Global, fields: &[(Name, T)], table: &Table) -> Result<Items<u32>, NoMemory>
    ensures value { IfOk result (λ l. l ≡ spec.numbers_of table.now.names (map (λ f. f.0) fields.now)) }
{
    let mut list = Items::new(alloc);
    for field in fields {
        list.push(name_number(&field.0, table)?)?;
    }
    Ok(list)
}

/// The number of the shape of these fields, and the number of shapes where it isn't there, in time
/// linear in the fields beside that of hashing them.
pub fn shape_number<T>(alloc: Global, fields: &[(Name, T)], table: &Table) -> Result<u32, NoMemory>
    ensures value { IfOk result (λ n. n ≡ spec.shape_number table.now (map (λ f. f.0) fields.now)) }
{
    let list = numbers_of(alloc, fields, table)?;
    list_number(list, table)
}

// ---- expressions

#[cycle(exprs)]
fn expr_table(alloc: Global, expr: &Expr, table: Table) -> Result<Table, NoMemory>
    ensures value { IfOk result (λ t. t ≡ spec.expr_table (seen_expr expr.now) table) }
{
    match &expr.kind {
        ExprKind::Null => Ok(table),
        ExprKind::Bool(_) => Ok(table),
        ExprKind::Int(_) => Ok(table),
        ExprKind::Var(_) => Ok(table),
        ExprKind::Call(_, args) => exprs_table(alloc, args.as_slice(), table),
        ExprKind::Neg(operand) => expr_table(alloc, operand.get(), table),
        ExprKind::Not(operand) => expr_table(alloc, operand.get(), table),
        ExprKind::Len(operand) => expr_table(alloc, operand.get(), table),
        ExprKind::Binary(_, left, right) => {
            let table = expr_table(alloc, left.get(), table)?;
            expr_table(alloc, right.get(), table)
        }
        ExprKind::Is(operand, ty) => {
            let table = expr_table(alloc, operand.get(), table)?;
            ty_table(alloc, ty, table)
        }
        ExprKind::Index(array, index) => {
            let table = expr_table(alloc, array.get(), table)?;
            expr_table(alloc, index.get(), table)
        }
        ExprKind::Field(whole, name) => {
            let table = expr_table(alloc, whole.get(), table)?;
            with_name(alloc, name, table)
        }
        ExprKind::List(items) => exprs_table(alloc, items.as_slice(), table),
        ExprKind::Repeat(item, count) => {
            let table = expr_table(alloc, item.get(), table)?;
            expr_table(alloc, count.get(), table)
        }
        ExprKind::Record(fields) => record_expr_table(alloc, fields.as_slice(), table),
        ExprKind::Quant(_, _, from, to, body) => {
            let table = expr_table(alloc, from.get(), table)?;
            let table = expr_table(alloc, to.get(), table)?;
            expr_table(alloc, body.get(), table)
        }
    }
}

#[cycle(exprs)]
fn exprs_table(alloc: Global, exprs: &[Expr], table: Table) -> Result<Table, NoMemory>
    ensures value { IfOk result (λ t. t ≡ spec.exprs_table (exprs_of (seen_exprs exprs.now)) table) }
{
    let mut table = table;
    for expr in exprs {
        table = expr_table(alloc, expr, table)?;
    }
    Ok(table)
}

/// The values of a record, and then its shape.
#[cycle(exprs)]
fn record_expr_table(
    alloc: Global,
    fields: &[(Name, Expr)],
    table: Table,
) -> Result<Table, NoMemory>
    ensures value { IfOk result (λ t. t ≡ spec.fields_shape (seen_fields fields.now) table) }
{
    let table = fields_table(alloc, fields, table)?;
    with_shape_of(alloc, fields, table)
}

#[cycle(exprs)]
fn fields_table(alloc: Global, fields: &[(Name, Expr)], table: Table) -> Result<Table, NoMemory>
    ensures value { IfOk result (λ t. t ≡ spec.fields_table (seen_fields fields.now) table) }
{
    let mut table = table;
    for field in fields {
        table = expr_table(alloc, &field.1, table)?;
    }
    Ok(table)
}

fn option_table(alloc: Global, value: &Option<Expr>, table: Table) -> Result<Table, NoMemory>
    ensures value { IfOk result (λ t. t ≡ spec.option_table (seen_option value.now) table) }
{
    match value {
        None => Ok(table),
        Some(expr) => expr_table(alloc, expr, table),
    }
}

// ---- statements

fn path_table(alloc: Global, path: &[Step], table: Table) -> Result<Table, NoMemory>
    ensures value { IfOk result (λ t. t ≡ spec.path_table (map seen_step path.now) table) }
{
    let mut table = table;
    for step in path {
        table = step_table(alloc, step, table)?;
    }
    Ok(table)
}

fn step_table(alloc: Global, step: &Step, table: Table) -> Result<Table, NoMemory>
    ensures value { IfOk result (λ t. t ≡ spec.path_table (seen_step step.now ∷ []) table) }
{
    match &step.kind {
        StepKind::Index(index) => expr_table(alloc, index, table),
        StepKind::Field(name) => with_name(alloc, name, table),
    }
}

#[cycle(stmts)]
fn stmt_table(alloc: Global, stmt: &Stmt, table: Table) -> Result<Table, NoMemory>
    ensures value { IfOk result (λ t. t ≡ spec.stmt_table (seen_stmt stmt.now) table) }
{
    match &stmt.kind {
        StmtKind::Declare(_, _, value) => option_table(alloc, value, table),
        StmtKind::Assign(_, path, value) => {
            let table = path_table(alloc, path.as_slice(), table)?;
            expr_table(alloc, value, table)
        }
        StmtKind::Call(_, args) => exprs_table(alloc, args.as_slice(), table),
        StmtKind::Return(value) => option_table(alloc, value, table),
        StmtKind::Assert(_) => Ok(table),
        StmtKind::Break => Ok(table),
        StmtKind::Continue => Ok(table),
        StmtKind::Skip => Ok(table),
        StmtKind::Fail => Ok(table),
        StmtKind::If(test, first, second) => {
            let table = expr_table(alloc, test, table)?;
            let table = block_table(alloc, first.as_slice(), table)?;
            block_table(alloc, second.as_slice(), table)
        }
        StmtKind::While(test, _, body) => {
            let table = expr_table(alloc, test, table)?;
            block_table(alloc, body.as_slice(), table)
        }
    }
}

#[cycle(stmts)]
fn block_table(alloc: Global, block: &[Stmt], table: Table) -> Result<Table, NoMemory>
    ensures value { IfOk result (λ t. t ≡ spec.stmts_table (seen_block block.now) table) }
{
    let mut table = table;
    for stmt in block {
        table = stmt_table(alloc, stmt, table)?;
    }
    Ok(table)
}
