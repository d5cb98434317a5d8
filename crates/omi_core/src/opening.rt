//! How a run begins.

ghost use Rattle.std.specs.Prelude.{◌≡◌, IfOk};
ghost use Rattle.omi_layout.specs.OpeningWords.{AreOpening};
ghost use Rattle.omi_rep.specs.Suits.{Suits};
ghost use Rattle.omi_core.specs.Runs.{AreOpeningActors};

use crate::OutOfMemory;
use omi_layout::Layout;
use omi_pc::Actor;
use omi_script::Program;
use omi_word::Image;
use std::alloc::Global;

/// The opening words of a program in a layout, with the tables in front.
pub fn opening_image(alloc: Global, p: &Program, l: &Layout) -> Result<Image, OutOfMemory>
    requires { Suits p.now l.now.table }
    ensures { IfOk result (λ image. AreOpening p.now l.now.table image) }
{
    let mut image = Image::zeroed(alloc, l.image_words())?;
    l.open(p, &mut image);
    Ok(image)
}

/// The actors with which the threads of a program start. Takes the room of their stacks.
pub fn opening_actors(alloc: Global, p: &Program) -> Result<Vec<Actor>, OutOfMemory>
    ensures { IfOk result (λ actors. AreOpeningActors p.now actors.items) }
{
    let mut actors = Vec::new(alloc);
    for thread in 0..p.threads {
        actors.push(Actor::opening(alloc, p, thread)?)?;
    }
    Ok(actors)
}
