// Names of members as they are written.
ghost use Rattle.std.specs.Prelude.{◌≡◌, ◌∷◌, [], ◌++◌, OnOk};
ghost use Rattle.json.specs.Print.{quoted};

use fed_json::{NoMemory, append_quoted};

// Appends the name of a member and its colon.
pub(crate) fn append_name(text: &mut Vec<u8>, name: &str) -> Result<(), NoMemory>
    ensures { OnOk result (text.new.items ≡ text.old.items ++ (quoted name.now ++ 58 ∷ [])) }
{
    append_quoted(text, name)?;
    text.push(b':')?;
    Ok(())
}
