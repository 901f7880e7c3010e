//! How the sides of a post are made.
ghost use Rattle.std.specs.Prelude.{◌≡◌, ◌≤◌, [], None, IfOk, length};
ghost use Rattle.bx_core.specs.Ties.{AreSides};
ghost use Rattle.bx_mail.specs.Sides.{IsNewBus, AreNewSides, IsSideOf};

use crate::post_bus::PostBus;
use crate::post_route::PostRoute;
use crate::rule::{Line, Sides};
use arrayvec::ArrayVec;
use bx_shared::Tally;
use std::alloc::{AllocError, Global};
use std::sync::Arc;

/// The sides of a new queue: the one pass that it has is divided.
pub(crate) fn open(alloc: Global, routes: u8) -> Result<(PostBus, Vec<PostRoute>), AllocError>
    requires { routes ≤ 8 }
    ensures bus { IfOk result (λ made. IsNewBus routes made.0) }
    ensures size { IfOk result (λ made. length made.1.items ≡ routes) }
    ensures sides { IfOk result (λ made. AreNewSides made.0.queue made.1.items) }
{
    let (line, mut pass) = Line::ruled(alloc, 8)?;
    let line = Arc::new(alloc, line)?;
    let mut sides = Vec::with_capacity(alloc, routes as usize)?;
    for route in 0..routes {
        let theirs = Arc::try_clone(&line)?;
        let posting = line.another::<Sides>(&mut pass);
        sides.push(PostRoute {
            line: theirs,
            pass: posting,
            route,
            last: 0,
            requested: 0,
        })?;
    }
    let bus = PostBus {
        line,
        pass,
        boxes: ArrayVec::new(),
        aside: None,
        tally: Tally::new(),
    };
    Ok((bus, sides))
}
