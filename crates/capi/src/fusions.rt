// The fusion of two tracks that both changed.
ghost use Rattle.std.specs.Prelude.{◌≡◌};
ghost use Rattle.fusion.specs.Fusion.{fusing, after_fusing};
ghost use Rattle.capi.specs.Fusions.{told_fusion};

use crate::told::refused;
use fusion::Fusion;
use kernel::question::Question;

// The code of an answer, and whether a track is fused into its place.
fn enter_fusion(answer: Result<Fusion, Question>, fused: &mut u32) -> u32
    ensures { (result, fused.new) ≡ told_fusion answer fused.old }
{
    match answer {
        Ok(Fusion::Fused) => {
            *fused = 1;
            0
        }
        Ok(Fusion::NotFused) => {
            *fused = 0;
            0
        }
        Err(question) => refused(question),
    }
}

// The fusion of ours and theirs over base, three tracks of dimension d by their fields, into out, and whether there is one into fused.
#[unsafe(no_mangle)]
pub extern "C" fn pel_fuse(
    base: &[f64],
    ours: &[f64],
    theirs: &[f64],
    d: usize,
    floor: f64,
    out: &mut [f64],
    fused: &mut u32,
) -> u32
    ensures fused_after { (result, fused.new)
        ≡ told_fusion (after_fusing (fusing base.now ours.now theirs.now d floor out.old) out.old).0 fused.old }
    ensures out_after { out.new ≡ (after_fusing (fusing base.now ours.now theirs.now d floor out.old) out.old).1 }
{
    let answer = fusion::fuse(base, ours, theirs, d, floor, out);
    enter_fusion(answer, fused)
}
