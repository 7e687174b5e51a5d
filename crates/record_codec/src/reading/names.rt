//! Reads the names with which a journal begins.

ghost use Rattle.std.specs.Prelude.{◌≡◌, []};
ghost use Rattle.std.specs.List.{list_any};
ghost use Rattle.std.specs.Str.{bytes_eq};
ghost use Rattle.record_codec.specs.Reading.{many_at, new_name_at, and_name, name_list_at};
ghost use Rattle.record_codec.specs.Giving.{Gives};

use super::Fields;
use crate::misfit::Misfit;
use mail_base::{BoxName, List};
use std::alloc::Global;

// The most names with which a journal begins.
const MAX_NAMES: u8 = 32;

impl Fields<'_> {
    /// 1 to `MAX_NAMES` names, no two of which are the same.
    #[tactic(auto, unfolding(crate::specs::Reading::name_list_at))]
    pub(crate) fn name_list(&mut self, alloc: Global) -> Result<List<BoxName>, Misfit>
        ensures { Gives (λ x. x) result self.new.rest.now (name_list_at self.old.rest.now) }
    {
        let left = self.rest.len();
        let count = self.byte()?;
        if count < 1 {
            return Err(Misfit::Left(left));
        }
        if count > MAX_NAMES {
            return Err(Misfit::Left(left));
        }
        let names = self.names(alloc, count)?;
        Ok(List::of(names))
    }

    // So many names, no two of which are the same.
    fn names(&mut self, alloc: Global, count: u8) -> Result<Vec<BoxName>, Misfit>
        ensures { Gives (λ x. x.items) result self.new.rest.now (many_at new_name_at and_name count [] self.old.rest.now) }
    {
        let mut names = Vec::new(alloc);
        let mut left = count;
        while left > 0 {
            let name = self.new_name(&names)?;
            names.push(name)?;
            left -= 1;
        }
        Ok(names)
    }

    // A name that isn't among others.
    #[tactic(auto, unfolding(crate::specs::Reading::new_name_at))]
    fn new_name(&mut self, names: &[BoxName]) -> Result<BoxName, Misfit>
        ensures { Gives (λ x. x) result self.new.rest.now (new_name_at names.now self.old.rest.now) }
    {
        let left = self.rest.len();
        let name = self.name()?;
        if is_among(&name, names) {
            return Err(Misfit::Left(left));
        }
        Ok(name)
    }
}

// Whether a name is one of these.
fn is_among(name: &BoxName, names: &[BoxName]) -> bool
    ensures { result ≡ list_any (bytes_eq name.now) names.now }
{
    names.iter().any(|other| name == other)
}
