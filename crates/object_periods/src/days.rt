//! The ranges that blocks have for each weekday (chapters "Time Periods" and "Object Inheritance").

ghost use Rattle.std.specs.Prelude.{◌≡◌, ◌<◌, ◌++◌, ◌∷◌, [], map, slice_index_or, IfOk};
ghost use Rattle.std.specs.Prelude.{OnOk};
ghost use Rattle.std.specs.Option.{option_copied};
ghost use Rattle.object_periods.specs.claims.Periods.{line_ranges, ranges_at};
ghost use Rattle.object_periods.specs.Periods.{column_of};
ghost use Rattle.object_values.specs.claims.Ranges.{weekdays};

use due_model::config::Range;
use due_model::sequence::Sequence;
use object_inheritance::inherited::Values;
use object_inheritance::templates::Templates;
use object_reader::block::Block;
use object_values::ranges::ranges_in;
use std::alloc::{AllocError, Global};
use std::marker::Model;

/// The ranges of a day line; none where there is no line.
pub(crate) fn line_ranges(alloc: Global, line: Option<&[u8]>) -> Result<Sequence<Range>, AllocError>
    ensures { IfOk result (λ ranges. ranges ≡ line_ranges (option_copied line.entry)) }
{
    let Some(text) = line else {
        return Ok(Sequence::new(Vec::new(alloc)));
    };
    match ranges_in(alloc, text)? {
        Some(ranges) => Ok(ranges),
        None => Ok(Sequence::new(Vec::new(alloc))),
    }
}

/// A week without ranges.
fn no_days(alloc: Global) -> [Sequence<Range>; 7] {
    [
        Sequence::new(Vec::new(alloc)),
        Sequence::new(Vec::new(alloc)),
        Sequence::new(Vec::new(alloc)),
        Sequence::new(Vec::new(alloc)),
        Sequence::new(Vec::new(alloc)),
        Sequence::new(Vec::new(alloc)),
        Sequence::new(Vec::new(alloc)),
    ]
}

/// Adds what all blocks have for a weekday.
fn push_day<'a>(
    alloc: Global,
    templates: &Templates<'a>,
    days: &mut Vec<Values<'a>>,
    weekday: &'a str,
) -> Result<(), AllocError>
    ensures { OnOk result (days.new.items
        ≡ days.old.items ++ column_of templates.now weekday.now ∷ []) }
{
    days.push(Values::new(alloc, templates, weekday.as_bytes())?)?;
    Ok(())
}

/// What all blocks have for the weekdays. It takes some 224 bytes a block. Contracts see the blocks.
#[derive(Drop)]
pub(crate) struct Week<'a> {
    blocks: &'a [Block],
    /// Sunday first.
    days: Vec<Values<'a>>,
}

impl<'a> Model for Week<'a> {
    ghost use Rattle.std.specs.Prelude.{List};
    ghost use Rattle.object_reader.specs.declared.block.Block.{Block};
    ghost use Rattle.object_periods.specs.Periods.{AreDays};

    ghost Value = { List Block };

    ghost view = { λ s. s.blocks.now };

    ghost invariant = { λ s. AreDays s.blocks.now s.days.items };
}

impl<'a> Week<'a> {
    /// What the blocks have. A refused growth leaves nothing.
    pub(crate) fn new(alloc: Global, templates: &Templates<'a>) -> Result<Week<'a>, AllocError>
        ensures { IfOk result (λ week. week ≡ templates.now) }
    {
        let blocks = templates.blocks();
        let mut days = Vec::new(alloc);
        push_day(alloc, templates, &mut days, "sunday")?;
        push_day(alloc, templates, &mut days, "monday")?;
        push_day(alloc, templates, &mut days, "tuesday")?;
        push_day(alloc, templates, &mut days, "wednesday")?;
        push_day(alloc, templates, &mut days, "thursday")?;
        push_day(alloc, templates, &mut days, "friday")?;
        push_day(alloc, templates, &mut days, "saturday")?;
        Ok(Week { blocks, days })
    }

    /// The ranges that the block at the place has for a weekday: 0 is Sunday.
    fn ranges_on(
        &self,
        alloc: Global,
        weekday: usize,
        place: usize,
    ) -> Result<Sequence<Range>, AllocError>
        requires { weekday < 7 }
        ensures { IfOk result (λ ranges. ranges
            ≡ ranges_at self.now place (slice_index_or weekdays weekday [])) }
    {
        line_ranges(alloc, self.days[weekday].value(place))
    }

    /// The ranges that the block at the place has for each weekday, Sunday first. A line that isn't ranges gives
    /// none. A refused growth leaves nothing.
    pub(crate) fn at(&self, alloc: Global, place: usize) -> Result<[Sequence<Range>; 7], AllocError>
        ensures { IfOk result (λ days. days ≡ map (ranges_at self.now place) weekdays) }
    {
        let mut days = no_days(alloc);
        for weekday in 0..7 {
            days[weekday] = self.ranges_on(alloc, weekday, place)?;
        }
        Ok(days)
    }
}
