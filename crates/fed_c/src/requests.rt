//! The bytes that are signed for a request.
ghost use Rattle.std.specs.Prelude.{◌≡◌, ◌≢◌, ◌<◌, false, length, Ok, Err, IfOk, IfErr};
ghost use Rattle.fed_json.specs.CanonicalText.{canonical_text};
ghost use Rattle.fed_c.specs.Output.{Gives, IsRefused};
ghost use Rattle.fed_c.specs.Requests.{are_texts, request_answer, with_content};
ghost use Rattle.fed_c.specs.Texts.{of_value};
ghost use Rattle.fed_c.specs.Values.{value_of};
ghost use Rattle.fed_c.specs.declared.status.Status.TheVariants.{Memory, NotUtf8};

use crate::output::{Answer, give};
use crate::values::{text, value};
use std::alloc::Global;

/// The bytes that are signed for a request (Server-Server API, "Request Authentication"): the canonical JSON of that section, by the value of
/// the body, `content`, in whatever spacing and order of keys it came. A request whose body is empty has no content.
///
/// Returns `NotUtf8` where one of the four texts is not UTF-8, for which it needs no memory; then `NotJson` or `NotCanonical` where the body has
/// no value.
#[unsafe(no_mangle)]
pub extern "C" fn wikzord_request_text(
    alloc: Global,
    method: &[u8],
    target: &[u8],
    origin: &[u8],
    destination: &[u8],
    content: &[u8],
    out: &mut [u8],
    needed: &mut usize,
) -> u32
    ensures gives { Gives (request_answer (record { method = method.now; target = target.now; origin = origin.now; destination = destination.now; content = content.now })) result
        (record { before = out.old; after = out.new; told_before = needed.old; told = needed.new }) }
    ensures refuses { are_texts (record { method = method.now; target = target.now; origin = origin.now; destination = destination.now; content = content.now }) ≡ false
        → IsRefused NotUtf8 result (record { before = out.old; after = out.new; told_before = needed.old; told = needed.new }) }
{
    let signed = request_text(alloc, method, target, origin, destination, content);
    give(signed, out, needed)
}

fn request_text(
    alloc: Global,
    method: &[u8],
    target: &[u8],
    origin: &[u8],
    destination: &[u8],
    content: &[u8],
) -> Answer
    ensures ok { IfOk result (λ bytes. request_answer (record { method = method.now; target = target.now; origin = origin.now; destination = destination.now; content = content.now })
        ≡ Ok bytes.items) }
    ensures fault { IfErr result (λ status. status ≢ Memory → request_answer (record { method = method.now; target = target.now; origin = origin.now; destination = destination.now; content = content.now })
        ≡ Err status) }
    ensures refuses { are_texts (record { method = method.now; target = target.now; origin = origin.now; destination = destination.now; content = content.now }) ≡ false
        → result ≡ Err NotUtf8 }
{
    let method = text(method)?;
    let target = text(target)?;
    let origin = text(origin)?;
    let destination = text(destination)?;
    if content.is_empty() {
        return Ok(fed_http::request_text(alloc, method, target, origin, destination, content)?);
    }
    by_value(alloc, method, target, origin, destination, content)
}

// The bytes by the value of the body.
fn by_value(
    alloc: Global,
    method: &str,
    target: &str,
    origin: &str,
    destination: &str,
    content: &[u8],
) -> Answer
    ensures ok { IfOk result (λ bytes. of_value
        (with_content (record { method = method.now; target = target.now; origin = origin.now; destination = destination.now; content = content.now }))
        (value_of content.now) ≡ Ok bytes.items) }
    ensures fault { IfErr result (λ status. status ≢ Memory → of_value
        (with_content (record { method = method.now; target = target.now; origin = origin.now; destination = destination.now; content = content.now }))
        (value_of content.now) ≡ Err status) }
{
    let json = value(alloc, content)?;
    let content = fed_json::canonical(alloc, &json)?;
    Ok(fed_http::request_text(alloc, method, target, origin, destination, &content)?)
}
