//! Whole numbers by sign and size.
ghost use Rattle.std.specs.Prelude.{◌≡◌, ◌≢◌, ◌<◌, ◌≤◌, ◌*◌, ◌^◌, ◌↔◌, pos, ◌+ℤ◌, ◌-ℤ◌, ◌*ℤ◌, option_map, IfSome, IsTrue};
ghost use Rattle.wy_term.specs.Rewriting.{fitted};
ghost use Rattle.wy_vc_laws.specs.wy_check_spec.valid.Products.{ratio};
ghost use Rattle.wy_check.specs.Seen.{signed_number, number_of, IsNear};

/// A whole number: whether it is below 0, and its size. 0 may have either sign.
#[derive(Clone, Copy, Debug, PartialEq, Eq)]
pub struct Whole {
    pub negative: bool,
    pub size: u128,
}

/// A number of 128 bits.
pub fn as_whole(z: i128) -> Whole
    ensures value { number_of result ≡ z }
    ensures size { result.size ≤ 2 ^ 127 }
{
    if z < 0 {
        Whole {
            negative: true,
            size: z.unsigned_abs(),
        }
    } else {
        Whole {
            negative: false,
            size: z.unsigned_abs(),
        }
    }
}

// The number with this sign and this size, where it is one of 128 bits.
fn narrowed(negative: bool, size: u128) -> Option<i128>
    ensures { result ≡ fitted (signed_number negative size) }
{
    match i128::try_from(size) {
        Ok(z) => { if negative { Some(-z) } else { Some(z) } }
        Err(_) => {
            if negative && size == 1 << 127 {
                Some(i128::MIN)
            } else {
                None
            }
        }
    }
}

/// The product of two numbers, where it is one of 128 bits.
pub fn product(x: Whole, y: Whole) -> Option<i128>
    ensures { result ≡ fitted (number_of x *ℤ number_of y) }
{
    match x.size.checked_mul(y.size) {
        Some(size) => narrowed(x.negative != y.negative, size),
        None => None,
    }
}

// The sum of two numbers, unless it is far above those of 128 bits.
fn sum(x: Whole, y: Whole) -> Option<Whole>
    ensures { IsNear result (number_of x +ℤ number_of y) }
{
    if x.negative == y.negative {
        return match x.size.checked_add(y.size) {
            Some(size) => Some(Whole {
                negative: x.negative,
                size,
            }),
            None => None,
        };
    }
    if x.size < y.size {
        Some(Whole {
            negative: y.negative,
            size: y.size - x.size,
        })
    } else {
        Some(Whole {
            negative: x.negative,
            size: x.size - y.size,
        })
    }
}

// Whether the product of two sizes, which is at least 2^128, is no more than that.
fn is_least(x: u128, y: u128) -> bool
    requires { 2 ^ 128 ≤ x * y }
    ensures { IsTrue result ↔ (x * y ≡ 2 ^ 128) }
{
    match x.checked_mul(y - 1) {
        Some(less) => less == u128::MAX - (x - 1),
        None => false,
    }
}

// A number and another one more, which has this sign and the product of two sizes as its size, where that is at least 2^128:
// the sum is no further from 0 than 2^127 where it is that number, by -2^127 and 2^128.
fn far_sum(z: i128, negative: bool, x: u128, y: u128) -> Option<Whole>
    requires { 2 ^ 128 ≤ x * y }
    ensures { IsNear result (z +ℤ signed_number negative (x * y)) }
{
    if z != i128::MIN {
        return None;
    }
    if negative {
        return None;
    }
    if !is_least(x, y) {
        return None;
    }
    Some(Whole {
        negative: false,
        size: 1 << 127,
    })
}

/// A number less a product, unless it is further from 0 than 2^127.
pub fn less_product(z: i128, a: Whole, c: i128) -> Option<Whole>
    ensures { IsNear result (z -ℤ number_of a *ℤ c) }
{
    let other = as_whole(c);
    let negative = a.negative == other.negative;
    match a.size.checked_mul(other.size) {
        Some(size) => sum(as_whole(z), Whole { negative, size }),
        None => far_sum(z, negative, a.size, other.size),
    }
}

/// The number other than 0 whose product with a given one is another, if there is one.
pub fn ratio(q: i128, r: i128) -> Option<Whole>
    requires { q ≢ pos 0 }
    ensures value { option_map number_of result ≡ ratio q r }
    ensures nonzero { IfSome result (λ a. 0 < a.size) }
{
    let divisor = as_whole(q);
    let dividend = as_whole(r);
    if divisor.size == 0 {
        return None;
    }
    if dividend.size == 0 {
        return None;
    }
    if dividend.size % divisor.size != 0 {
        return None;
    }
    Some(Whole {
        negative: divisor.negative != dividend.negative,
        size: dividend.size / divisor.size,
    })
}
