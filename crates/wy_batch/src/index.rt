//! Where the certificate for a condition stands.
ghost use Rattle.std.specs.Prelude.{nat_eq, ◌≡◌, IfOk};
ghost use Rattle.std.specs.HashMap.{get};
ghost use Rattle.wy_batch.specs.Index.{IsIndex};

use std::alloc::Global;
use std::collections::HashMap;
use wy_cert::Certs;
use wy_term::NoMemory;

/// The place, from 0, of the first certificate for each condition that has one, by the condition's number, from 1. In time linear in
/// the certificates.
pub fn index_of(alloc: Global, certs: &Certs) -> Result<HashMap<u32, usize>, NoMemory>
    ensures { IfOk result (λ places. IsIndex certs.now.list.items (get nat_eq places)) }
{
    let mut places = HashMap::new(alloc);
    let mut place = certs.list.len();
    'back: while place > 0 {
        place -= 1;
        let number = certs.list[place].0;
        places.insert(number, place)?;
    }
    Ok(places)
}

/// The place of the first certificate for the condition with this number, if it has one.
pub fn place_of(places: &HashMap<u32, usize>, number: u32) -> Option<usize>
    ensures { result ≡ get nat_eq places.now number }
{
    places.get(&number).copied()
}
