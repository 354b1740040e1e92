ghost use Rattle.std.specs.Prelude.{◌≡◌, ◌++◌, string_bytes, OnOk};
ghost use Rattle.class_dump.specs.Names.{byte_text, hex};

use item_types::Memory;

fn push_byte(byte: u8, out: &mut String) -> Result<(), Memory>
    ensures { OnOk result (string_bytes out.new ≡ string_bytes out.old ++ byte_text byte) }
{
    let high = byte / 16;
    let low = byte % 16;
    write!(out, "{high:x}{low:x}")?;
    Ok(())
}

/// Appends two hexadecimal digits in lower case for each byte.
///
/// # Errors
/// `Memory` for want of memory.
pub fn push_hex(bytes: &[u8], out: &mut String) -> Result<(), Memory>
    ensures { OnOk result (string_bytes out.new ≡ string_bytes out.old ++ hex bytes.now) }
{
    for byte in bytes {
        push_byte(*byte, out)?;
    }
    Ok(())
}
