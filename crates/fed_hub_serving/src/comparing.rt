// Whether requests and replies are equal.
ghost use Rattle.std.specs.Prelude.{◌≡◌, ◌↔◌, IsTrue};

use fed_http::{Field, Reply, Request};

/// Whether two requests have the same method, target, fields and body. It takes no memory.
pub(crate) fn are_equal_requests(one: &Request, other: &Request) -> bool
    ensures { IsTrue result ↔ (one.now ≡ other.now) }
{
    one.method() == other.method()
        && one.target() == other.target()
        && one.body() == other.body()
        && are_equal_fields(one.fields(), other.fields())
}

/// Whether two replies have the same status and body. It takes no memory.
pub(crate) fn are_equal_replies(one: &Reply, other: &Reply) -> bool
    ensures { IsTrue result ↔ (one.now ≡ other.now) }
{
    one.status() == other.status() && one.body() == other.body()
}

// Whether these are the same fields, in the same order.
fn are_equal_fields(some: &[Field], others: &[Field]) -> bool
    ensures { IsTrue result ↔ (some.now ≡ others.now) }
{
    let mut left = others.iter();
    for field in some {
        match left.next() {
            Some(other) if is_equal_field(field, other) => {}
            _ => return false,
        }
    }
    left.next().is_none()
}

// Whether two fields have the same name, in the same case of letters, and the same value.
fn is_equal_field(one: &Field, other: &Field) -> bool
    ensures { IsTrue result ↔ (one.now ≡ other.now) }
{
    one.name() == other.name() && one.value() == other.value()
}
