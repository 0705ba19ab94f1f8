//! The words of what a crash is wished to leave of the writes since the last sync.
ghost use Rattle.std.specs.Prelude.{◌≡◌, ◌≤◌, ◌+◌, ◌++◌, IfSome, Some, length};
ghost use Rattle.dtx_values.specs.declared.words.Image.{Image};
ghost use Rattle.dtx_model.specs.Grammar.{image_word};
ghost use Rattle.line_tail.specs.declared.tail.TheConstants.{LINE_ROOM};
ghost use Rattle.line_words.specs.declared.widths.TheConstants.{WORD_ROOM};

use dtx_values::Image;
use line_tail::Tail;

const LOSE: &[u8] = b"lose";

const KEEP: &[u8] = b"keep";

const TORN: &[u8] = b"torn";

/// Puts what a crash is wished to leave of the writes since the last sync.
#[inline]
pub fn put_image(tail: &mut Tail, i: Image)
    requires { WORD_ROOM + length tail.old ≤ LINE_ROOM }
    ensures text { tail.new ≡ image_word i ++ tail.old }
    ensures length { length tail.new ≤ WORD_ROOM + length tail.old }
{
    match i {
        Image::Lose => tail.put(LOSE),
        Image::Keep => tail.put(KEEP),
        Image::Torn => tail.put(TORN),
    }
}

/// Reads what a crash is wished to leave of the writes since the last sync.
pub fn image_of(word: &[u8]) -> Option<Image>
    ensures some { IfSome result (λ i. word.now ≡ image_word i) }
    ensures of { (i : Image) → word.now ≡ image_word i → result ≡ Some i }
{
    if word == LOSE {
        return Some(Image::Lose);
    }
    if word == KEEP {
        return Some(Image::Keep);
    }
    if word == TORN {
        return Some(Image::Torn);
    }
    None
}
