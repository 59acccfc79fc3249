// The fields of a page's line.
ghost use Rattle.std.specs.Prelude.{◌≡◌, ◌≢◌, ◌^◌, ◌<◌, ◌↔◌, ℕ, Bool, IsTrue, MatchOption};
ghost use Rattle.pf_io.specs.Numbers.{Spells};
ghost use Rattle.enclave_measure.specs.declared.page.Permissions.{Permissions as Access};
ghost use Rattle.enclave_measure.specs.declared.page.PageType.{PageType as Kind};
ghost use Rattle.enclave_measure.specs.Pages.{letter_or, permissions_word, type_word, measured_word, IsAllowed, AreFields};

use crate::hexadecimal::read_hex;
use crate::page::{PageType, Permissions};
use pf_io::read_number;

const PAGE: u64 = 4096;

/// A decimal number below 2^32.
pub(crate) fn read_u32(text: &[u8]) -> Option<u32>
    ensures { MatchOption result ((number : ℕ) → Spells text.now number → ¬ (number < 2 ^ 32)) (λ number. Spells text.now number) }
{
    let number = read_number(text)?;
    u32::try_from(number).ok()
}

// Whether a permission is given by its letter, or refused by `-`.
fn is_given(byte: u8, letter: u8) -> Option<bool>
    ensures { MatchOption result ((given : Bool) → byte ≢ letter_or letter given) (λ given. byte ≡ letter_or letter given) }
{
    if byte == letter {
        Some(true)
    } else if byte == b'-' {
        Some(false)
    } else {
        None
    }
}

fn read_permissions(word: &[u8]) -> Option<Permissions>
    ensures { MatchOption result ((permissions : Access) → word.now ≢ permissions_word permissions) (λ permissions. word.now ≡ permissions_word permissions) }
{
    let [read, write, execute] = word else {
        return None;
    };
    let read = is_given(*read, b'r')?;
    let write = is_given(*write, b'w')?;
    let execute = is_given(*execute, b'x')?;
    Some(Permissions {
        read,
        write,
        execute,
    })
}

fn read_type(word: &[u8]) -> Option<PageType>
    ensures { MatchOption result ((page_type : Kind) → word.now ≢ type_word page_type) (λ page_type. word.now ≡ type_word page_type) }
{
    match word {
        b"tcs" => Some(PageType::Tcs),
        b"reg" => Some(PageType::Reg),
        _ => None,
    }
}

fn read_measured(word: &[u8]) -> Option<bool>
    ensures { MatchOption result ((measured : Bool) → word.now ≢ measured_word measured) (λ measured. word.now ≡ measured_word measured) }
{
    match word {
        b"measured" => Some(true),
        b"bare" => Some(false),
        _ => None,
    }
}

fn is_allowed(offset: u64, permissions: Permissions, page_type: PageType) -> bool
    ensures { IsTrue result ↔ IsAllowed offset permissions page_type }
{
    let Permissions {
        read,
        write,
        execute,
    } = permissions;
    let fits_type = match page_type {
        PageType::Tcs => !read && !write && !execute,
        PageType::Reg => read || !write,
    };
    offset % PAGE == 0 && fits_type
}

/// What stands between `page` and the source.
#[derive(Clone, Copy)]
pub(crate) struct Fields {
    pub offset: u64,
    pub permissions: Permissions,
    pub page_type: PageType,
    pub measured: bool,
}

/// The fields that four words spell, where a page may have them.
pub(crate) fn read_fields(
    offset: &[u8],
    permissions: &[u8],
    page_type: &[u8],
    measured: &[u8],
) -> Option<Fields>
    ensures { MatchOption result
        ((number : ℕ) (access : Access) (kind : Kind) (extent : Bool) → ¬ (AreFields offset.now permissions.now page_type.now measured.now number access kind extent))
        (λ fields. AreFields offset.now permissions.now page_type.now measured.now fields.offset fields.permissions fields.page_type fields.measured) }
{
    let offset = read_hex(offset)?;
    let permissions = read_permissions(permissions)?;
    let page_type = read_type(page_type)?;
    let measured = read_measured(measured)?;
    if !is_allowed(offset, permissions, page_type) {
        return None;
    }
    Some(Fields {
        offset,
        permissions,
        page_type,
        measured,
    })
}
