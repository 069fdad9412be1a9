// Repairs of a covariance.
ghost use Rattle.std.specs.Prelude.{◌≡◌};
ghost use Rattle.repair.specs.Repair as Repair;
ghost use Rattle.capi.specs.Repairs.{mask_bits, told_repair};

use crate::told::refused;
use kernel::question::Question;
use repair::{RegularizationReport, regularize};

// The bits of a mask, that of entry k at bit k.
fn mask_bits(mask: [bool; 16]) -> u32
    ensures { result ≡ mask_bits mask }
{
    let mut bits = 0;
    // By a fold with `|` the result stayed open; by one that doubles, from the last bit on, also that the sum fits.
    for (k, x) in mask.iter().enumerate() {
        bits += u32::from(*x) << k;
    }
    bits
}

// The code of an answer, and its report into the three places.
fn enter_report(
    repaired: Result<RegularizationReport, Question>,
    n_clipped: &mut usize,
    max_clip_magnitude: &mut f64,
    clipped_indices: &mut u32,
) -> u32
    ensures { (result, (n_clipped.new, (max_clip_magnitude.new, clipped_indices.new)))
        ≡ told_repair repaired n_clipped.old max_clip_magnitude.old clipped_indices.old }
{
    match repaired {
        Ok(report) => {
            *n_clipped = report.n_clipped;
            *max_clip_magnitude = report.max_clip_magnitude;
            *clipped_indices = mask_bits(report.clipped_indices);
            0
        }
        Err(question) => refused(question),
    }
}

// The matrix nearest to cov, n by n, whose eigenvalues are not below min_eig, into out, and what was clipped. One entry is told apart, in the
// same way: there a compiler sees that one truth of the mask is left, and makes no bits of the others.
#[unsafe(no_mangle)]
pub extern "C" fn pel_nearest_psd(
    cov: &[f64],
    min_eig: f64,
    n: usize,
    out: &mut [f64],
    n_clipped: &mut usize,
    max_clip_magnitude: &mut f64,
    clipped_indices: &mut u32,
) -> u32
    ensures clipped_indices_after { (result, (n_clipped.new, (max_clip_magnitude.new, clipped_indices.new)))
        ≡ told_repair (Repair.after_repair (Repair.nearest_psd cov.now min_eig n out.old) out.old).0
        n_clipped.old max_clip_magnitude.old clipped_indices.old }
    ensures out_after { out.new ≡ (Repair.after_repair (Repair.nearest_psd cov.now min_eig n out.old) out.old).1 }
{
    if n == 1 {
        let single = regularize::nearest_psd(cov, min_eig, n, out);
        return enter_report(single, n_clipped, max_clip_magnitude, clipped_indices);
    }
    let repaired = regularize::nearest_psd(cov, min_eig, n, out);
    enter_report(repaired, n_clipped, max_clip_magnitude, clipped_indices)
}

// The same by its other name.
#[unsafe(no_mangle)]
pub extern "C" fn pel_eigenvalue_floor(
    cov: &[f64],
    min_eig: f64,
    n: usize,
    out: &mut [f64],
    n_clipped: &mut usize,
    max_clip_magnitude: &mut f64,
    clipped_indices: &mut u32,
) -> u32
    ensures clipped_indices_after { (result, (n_clipped.new, (max_clip_magnitude.new, clipped_indices.new)))
        ≡ told_repair (Repair.after_repair (Repair.nearest_psd cov.now min_eig n out.old) out.old).0
        n_clipped.old max_clip_magnitude.old clipped_indices.old }
    ensures out_after { out.new ≡ (Repair.after_repair (Repair.nearest_psd cov.now min_eig n out.old) out.old).1 }
{
    pel_nearest_psd(
        cov,
        min_eig,
        n,
        out,
        n_clipped,
        max_clip_magnitude,
        clipped_indices,
    )
}
