// Both interfaces on one position: the line of whichever capture has one, as a stretch of the caller's own memory.
#![tactic(auto)]

ghost use Rattle.std.specs.Prelude.{◌+◌, ◌≤◌, ◌≡◌};
ghost use Rattle.std.proofs.Math.ListN;
ghost use Rattle.base_rules.specs.Shown.{shown};
ghost use Rattle.mbus_either.specs.Interfaces.{find_either};
ghost use Rattle.mbus_either.specs.Stretches.{PartAt, StretchOf, HandsEither};

use base_rules::Refusal;
use mbus_search::{Spot, find_line};

// The two interfaces of a position.
#[derive(Clone, Copy)]
pub enum Interface {
    Mbus,
    Optical,
}

// The interface whose capture has an accepted line, and where the first one in it lies.
#[derive(Clone, Copy)]
pub struct LiveLine {
    pub interface: Interface,
    pub spot: Spot,
}

// What was found, and the stretch of the caller's own capture that it is; an empty one where it is refused. (No Result of both: HandsEither
// promises the stretch on a refusal too.)
#[derive(Clone, Copy)]
pub struct Either<'a> {
    pub stretch: &'a [u16],
    pub found: Result<LiveLine, Refusal>,
}

// Where the first accepted line of the M-Bus capture lies, or else of the optical one, which is not looked at before.
pub fn either_at<'a>(mbus: &'a [u16], optical: &'a [u16]) -> Result<LiveLine, Refusal>
    ensures { result ≡ shown (find_either mbus.now optical.now) }
{
    if let Ok(spot) = find_line(mbus) {
        return Ok(LiveLine {
            interface: Interface::Mbus,
            spot,
        });
    }
    let spot = find_line(optical)?;
    Ok(LiveLine {
        interface: Interface::Optical,
        spot,
    })
}

// A part of a capture.
fn part_of<'a>(capture: &'a [u16], spot: Spot) -> &'a [u16]
    requires { spot.place + spot.length ≤ ListN.length capture.now }
    ensures { PartAt spot capture.entry result }
{
    &capture[spot.place..spot.place + spot.length]
}

// The stretch where the line was found to lie, and an empty one, of M-Bus, where it was refused.
fn stretch_at<'a>(
    mbus: &'a [u16],
    optical: &'a [u16],
    found: Result<LiveLine, Refusal>,
) -> &'a [u16]
    requires { found ≡ shown (find_either mbus.now optical.now) }
    ensures { StretchOf (find_either mbus.now optical.now) mbus.entry optical.entry result }
{
    match found {
        Err(_) => part_of(
            mbus,
            Spot {
                place: 0,
                length: 0,
            },
        ),
        Ok(line) => match line.interface {
            Interface::Mbus => part_of(mbus, line.spot),
            Interface::Optical => part_of(optical, line.spot),
        },
    }
}

// The stretch of whichever capture has an accepted line, the first such line in it, M-Bus before optical when both have one.
pub fn find_either<'a>(mbus: &'a [u16], optical: &'a [u16]) -> Either<'a>
    ensures { HandsEither mbus.entry optical.entry result }
{
    let found = either_at(mbus, optical);
    let stretch = stretch_at(mbus, optical, found);
    Either { stretch, found }
}
