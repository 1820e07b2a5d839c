//! Lines `share,FROM,TO,POINT,V`, each followed by its weights.
ghost use Rattle.std.specs.Prelude.{◌≡◌, ◌++◌, ◌<◌, All, false, length, map, OnOk};
ghost use Rattle.std.specs.List.{flat_map};
ghost use Rattle.fp_records.specs.Text.{line_of, lines_of};
ghost use Rattle.fp_certificate_lines.specs.Ranges.{ShareExists};
ghost use Rattle.fp_certificate_lines.specs.Rows.{share_fields, share_rows};

use crate::NoMemory;
use crate::lines::names::write_ends;
use crate::lines::weights::write_weights;
use fp_model::Instance;
use fp_prices::Share;
use fp_records::Line;

// Adds the line of a share, without its weights.
fn write_class(line: &mut Line, instance: &Instance, share: &Share) -> Result<(), NoMemory>
    requires begun { line.old.begun ≡ false }
    requires exists { share.now.arc < length instance.now.arcs }
    ensures text { OnOk result (line.new.text ≡ line.old.text ++ line_of (share_fields instance.now share.now)) }
    ensures ended { OnOk result (line.new.begun ≡ false) }
{
    line.word(b"share")?;
    write_ends(line, instance, share.arc)?;
    line.number(u128::from(share.point))?;
    line.number(share.v)?;
    line.end()
}

// Adds the line of a share, followed by its weights.
fn write_share(line: &mut Line, instance: &Instance, share: &Share) -> Result<(), NoMemory>
    requires begun { line.old.begun ≡ false }
    requires exists { ShareExists instance.now share.now }
    ensures text { OnOk result (line.new.text ≡ line.old.text ++ lines_of (share_rows instance.now share.now)) }
    ensures ended { OnOk result (line.new.begun ≡ false) }
{
    write_class(line, instance, share)?;
    write_weights(line, instance, &share.weights)
}

/// Adds the lines of shares, each followed by its weights.
pub fn write_shares(line: &mut Line, instance: &Instance, shares: &[Share]) -> Result<(), NoMemory>
    requires begun { line.old.begun ≡ false }
    requires exist { All (ShareExists instance.now) shares.now }
    ensures text { OnOk result (line.new.text ≡ line.old.text ++ lines_of (flat_map (share_rows instance.now) shares.now)) }
    ensures ended { OnOk result (line.new.begun ≡ false) }
{
    for share in shares {
        write_share(line, instance, share)?;
    }
    Ok(())
}
