//! Delivers texts to their files, in place or by renames.
ghost use Rattle.std.specs.Prelude.{◌≡◌, map, bytes_eq};
ghost use Rattle.std.specs.List.{list_any};
ghost use Rattle.kc_io.specs.Log.{Tells};
ghost use Rattle.kc_io.specs.Delivery.{chosen, delivery, share_name};
ghost use Rattle.kc_io.specs.Delivered.{text_view, Delivered, Went};

use crate::device::{Device, Site};
use crate::steps::{Failure, move_all, put_all};

/// A text, and the name of the file to which it belongs.
#[derive(Drop)]
pub struct Text<'a> {
    pub name: &'a str,
    pub bytes: Vec<u8>,
}

/// How texts are written to their files.
#[derive(Clone, Copy, Debug, PartialEq, Eq)]
pub enum Manner {
    /// Each file is written in place.
    InPlace,
    /// Each text that differs from its file is written to a temporary file. When all are complete, each is renamed to its path.
    Replacing,
}

// Whether one of the texts has this name.
fn has_name(name: &str, texts: &[Text<'_>]) -> bool
    ensures { result ≡ list_any (λ text. bytes_eq name.now text.name) (map text_view texts.now) }
{
    texts.iter().any(|text| name == text.name)
}

// Whether two of the texts have the same name.
fn share_name(texts: &[Text<'_>]) -> bool
    ensures { result ≡ share_name (map text_view texts.now) }
{
    let mut rest = texts;
    while let [text, behind @ ..] = rest {
        if has_name(text.name, behind) {
            return true;
        }
        rest = behind;
    }
    false
}

// Keeps only the texts that must be written.
fn choose<D: Device>(manner: Manner, texts: &mut Vec<Text<'_>>, device: &D)
    ensures { Tells (D.log device.now) (λ journal. map text_view texts.new.items ≡ chosen manner (map text_view texts.old.items) journal) }
{
    match manner {
        Manner::InPlace => {}
        Manner::Replacing => {
            if !share_name(texts) {
                texts.retain(|text| !device.holds(text.name, &text.bytes));
            }
        }
    }
}

// Writes these texts.
fn make<'a, D: Device>(
    manner: Manner,
    texts: &[Text<'a>],
    device: &mut D,
) -> Result<(), Failure<'a>>
    ensures { Went (delivery manner (map text_view texts.now)) (D.log device.old) (D.log device.new) result }
{
    match manner {
        Manner::InPlace => put_all(device, Site::Place, texts),
        Manner::Replacing => match put_all(device, Site::Beside, texts) {
            Ok(()) => move_all(device, texts),
            Err(failure) => Err(failure),
        },
    }
}

/// Delivers texts to their files, in order (our own).
///
/// `InPlace` writes each file anew. `Replacing` does not touch a file that holds its text; the other texts are written to temporary files,
/// which are renamed when all are complete. If two texts have the same name, all are written.
///
/// # Errors
///
/// The first failure. Everything before it was done, and nothing after it. No temporary file is left.
pub fn deliver<'a, D: Device>(
    manner: Manner,
    texts: Vec<Text<'a>>,
    device: &mut D,
) -> Result<(), Failure<'a>>
    ensures { Delivered manner (map text_view texts.entry.items) (D.log device.old) (D.log device.new) result }
{
    let mut texts = texts;
    choose(manner, &mut texts, device);
    match make(manner, &texts, device) {
        Ok(()) => Ok(()),
        Err(failure) => {
            if let Manner::Replacing = manner {
                device.clear();
            }
            Err(failure)
        }
    }
}
