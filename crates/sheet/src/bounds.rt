// The bounds of a sheet: what refusal 24 denies.
ghost use Rattle.std.specs.Prelude.{◌≡◌};
ghost use Rattle.sheet.specs.Bounds.{in_bounds};

use crate::Sheet;

impl Sheet {
    // Whether an opening would accept what the sheet holds, and the kept changes are at most 64 that their calls would accept.
    #[tactic(auto, using(terms::proofs::Named::erred, terms::proofs::Named::not_erred), unfolding(crate::specs::Bounds::in_bounds))]
    pub fn in_bounds(self) -> bool
        ensures { result ≡ in_bounds self }
    {
        if Sheet::LETTERS < self.n {
            return false;
        }
        if self.places().check_opening(self.limits).is_err() {
            return false;
        }
        kept::accepted(
            &self.kept,
            self.standing,
            self.taken,
            self.n,
            &self.alphabet,
        )
    }
}
