//! Records of the values of their fields.
ghost use Rattle.std.specs.Prelude.{◌≡◌, ◌∷◌, [], ◌++◌, IfOk, map, take};
ghost use Rattle.wy_value.specs.Datum.{Record, field};
ghost use Rattle.wy_value.specs.Seen.{seen};
ghost use Rattle.wy_probe.specs.Candidates as spec;
ghost use Rattle.wy_probe.specs.Tables.{data_in, rows_in};

use crate::lists::MOST;
use std::alloc::{AllocError, Global};
use wy_core::Name;
use wy_items::Items;
use wy_value::Value;

/// The fields of a record.
pub type Row = Items<(Name, Value)>;

/// The first rows of those with one of the values of the field before one of the rests, the rests faster.
pub fn with_field(
    alloc: Global,
    name: &Name,
    values: &[Value],
    rests: &[Row],
) -> Result<Items<Row>, AllocError>
    ensures value { IfOk result (λ rows. rows_in rows ≡ take spec.most (spec.with_field name.now (data_in values.now) (rows_in rests.now))) }
{
    let mut rows = Items::new(alloc);
    for value in values {
        rows = led_by(alloc, rows, name, value, rests)?;
    }
    Ok(cut_rows(rows))
}

// Behind others, the rows with this value before one of the rests.
fn led_by(
    alloc: Global,
    rows: Items<Row>,
    name: &Name,
    value: &Value,
    rests: &[Row],
) -> Result<Items<Row>, AllocError>
    ensures value { IfOk result (λ more. rows_in more ≡ rows_in rows ++ map (field name.now (seen value.now)) (rows_in rests.now)) }
{
    let mut rows = rows;
    for rest in rests {
        let mut row = Items::new(alloc);
        row.push((name.copy(alloc)?, value.copy(alloc)?))?;
        let row = with_rest(alloc, row, rest.as_slice())?;
        rows.push(row)?;
    }
    Ok(rows)
}

// The row with these fields behind.
fn with_rest(alloc: Global, row: Row, rest: &[(Name, Value)]) -> Result<Row, AllocError>
    ensures value { IfOk result (λ whole. whole ≡ row ++ rest.now) }
{
    let mut row = row;
    for part in rest {
        let name = part.0.copy(alloc)?;
        row.push((name, part.1.copy(alloc)?))?;
    }
    Ok(row)
}

// The first of the rows.
fn cut_rows(rows: Items<Row>) -> Items<Row>
    ensures value { rows_in result ≡ take spec.most (rows_in rows) }
{
    let mut made = rows.into_vec();
    made.truncate(MOST);
    Items::from_vec(made)
}

/// The records of these rows.
pub fn records(alloc: Global, rows: Items<Row>) -> Result<Items<Value>, AllocError>
    ensures value { IfOk result (λ made. data_in made ≡ map (λ fs. Record fs) (rows_in rows)) }
{
    let mut made = Items::new(alloc);
    let held = rows.as_slice();
    for row in held {
        let fields = with_rest(alloc, Items::new(alloc), row.as_slice())?;
        made.push(Value::Record(fields))?;
    }
    Ok(made)
}
