//! The ids of events as a JSON array gives them.
ghost use Rattle.std.specs.Prelude.{◌≡◌, ◌≢◌, Ok, Err, IfOk, IfErr};
ghost use Rattle.fed_json.specs.Items.{left};
ghost use Rattle.fed_c.specs.Ids.{are_texts, ids_in, is_id_list};
ghost use Rattle.fed_c.specs.Results.{and_then};
ghost use Rattle.fed_c.specs.Values.{value_of};
ghost use Rattle.fed_c.specs.declared.status.Status.TheVariants.{Memory};

use crate::status::Status;
use crate::values::value;
use fed_json::{Items, Json};
use std::alloc::Global;

/// The array of ids that a text is. Whether there are events of these ids is not looked at.
///
/// # Errors
///
/// `NotJson` and `NotCanonical`; `BadIds` where the value is no array of texts. `Memory` where memory ran out.
pub(crate) fn ids(alloc: Global, text: &[u8]) -> Result<Json, Status>
    ensures ok { IfOk result (λ json. and_then (value_of text.now) ids_in ≡ Ok json) }
    ensures fault { IfErr result (λ status. status ≢ Memory → and_then (value_of text.now) ids_in ≡ Err status) }
{
    let json = value(alloc, text)?;
    if is_id_list(&json) {
        Ok(json)
    } else {
        Err(Status::BadIds)
    }
}

fn is_id_list(json: &Json) -> bool
    ensures { result ≡ is_id_list json.now }
{
    match json.items() {
        Some(items) => are_texts(items),
        None => false,
    }
}

fn are_texts(items: Items<'_>) -> bool
    ensures { result ≡ are_texts (left items.entry) }
{
    for item in items {
        if item.text().is_none() {
            return false;
        }
    }
    true
}
