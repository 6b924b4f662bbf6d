ghost use Rattle.std.specs.Prelude.{◌≡◌, map, is_err, Some};
ghost use Rattle.model.specs.Build.{loses_dialect};
ghost use Rattle.model.specs.Bytes.{any, repeats, same_bytes};
ghost use Rattle.model.specs.Version.{dialects};
ghost use Rattle.version.specs.Meaning.{content_of, version_of};
ghost use Rattle.dialect.specs.Folding.{folded_dialect};

use setting::fold::same_folded;
use version::view_version::{SqlViewRepresentation, ViewVersion};

// Two dialects of a version are equal up to case.
#[derive(Clone, Copy)]
pub struct RepeatedDialect;

// Some representation has the dialect of this one, up to case.
fn has_dialect(
    representations: &[SqlViewRepresentation],
    like: &SqlViewRepresentation,
    block: &[u8],
) -> bool
    ensures { result ≡ any (same_bytes (folded_dialect block.now like.now)) (map (folded_dialect block.now) representations.now) }
{
    let dialect = like.dialect.bytes(block);
    representations
        .iter()
        .any(|r| same_folded(dialect, r.dialect.bytes(block)))
}

// Refuses a version of which two dialects are equal up to case.
pub fn require_unique_dialects(version: &ViewVersion, block: &[u8]) -> Result<(), RepeatedDialect>
    ensures { is_err result ≡ repeats same_bytes (dialects (content_of block.now version.now)) }
{
    let mut left = version.representations;
    while let [first, rest @ ..] = left {
        if has_dialect(rest, first, block) {
            return Err(RepeatedDialect);
        }
        left = rest;
    }
    Ok(())
}

// Some dialect of the previous version is, up to case, none of the current one's.
pub fn loses_dialect(previous: &ViewVersion, current: &ViewVersion, block: &[u8]) -> bool
    ensures { result ≡ loses_dialect (Some (version_of block.now previous.now)) (content_of block.now current.now) }
{
    let (olds, news) = (previous.representations, current.representations);
    olds.iter().any(|old| !has_dialect(news, old, block))
}
