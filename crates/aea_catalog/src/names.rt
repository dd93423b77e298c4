//! What may be the name of an object.

ghost use Rattle.std.specs.Prelude.{◌≡◌, ◌↔◌, IsTrue};
ghost use Rattle.std.specs.List.{list_all};
ghost use Rattle.std.specs.Str.{is_utf8};
ghost use Rattle.aea_catalog.specs.Names.{IsName, is_plain_byte};

// Whether no byte is a control character.
fn is_plain(name: &[u8]) -> bool
    ensures { result ≡ list_all is_plain_byte name.now }
{
    name.iter().all(|&byte| 32 <= byte && byte != 127)
}

// Whether the bytes are UTF-8.
fn is_text(name: &[u8]) -> bool
    ensures { result ≡ is_utf8 name.now }
{
    str::from_utf8(name).is_ok()
}

/// Whether the bytes may be a name: 1 to 255 bytes of UTF-8 without a byte below 32 and without byte 127. It takes no
/// memory.
pub fn check_name(name: &[u8]) -> bool
    ensures { IsTrue result ↔ IsName name.now }
{
    !name.is_empty() && name.len() <= 255 && is_plain(name) && is_text(name)
}
