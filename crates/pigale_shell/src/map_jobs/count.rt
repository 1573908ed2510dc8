//! The job `count`: numbers of vertices, edges, faces and components, and the genus.
use crate::method::{MapRecord, Method};
use crate::output_lines::count_line;
use euler_faces::{Counter, EulerCount};
use half_edges::Rotations;
use refusals::Unserved;
use std::alloc::{AllocError, Global};

/// The method of the job `count`: it counts vertices, edges, faces and components.
#[derive(Drop)]
pub struct Count {
    alloc: Global,
    counter: Counter,
}

impl Method for Count {
    ghost use Rattle.std.specs.Prelude.{◌≡◌};
    ghost use Rattle.map_theory.specs.Maps.{vertex_count, edge_count, face_count, component_count};
    ghost use Rattle.pigale_shell.specs.Kinds.{says_of};
    ghost use Rattle.pigale_shell.specs.declared.map_jobs.MapJob.TheVariants as job;

    type Figure = EulerCount;

    ghost says = { says_of job.Count };

    ghost IsFigure = { λ lists count. (count.n ≡ vertex_count lists) × (count.m ≡ edge_count lists)
        × (count.f ≡ face_count lists) × (count.c ≡ component_count lists) };

    // Makes the method, before the first map. It takes no memory.
    fn new(alloc: Global) -> Count {
        Count {
            alloc,
            counter: Counter::new(alloc),
        }
    }

    // Counts the map of `lists`. `Err` has the first condition of a simple map that they break, or says no memory.
    fn figure(&mut self, lists: &Rotations) -> Result<EulerCount, Unserved> {
        let count = self.counter.count(lists)?;
        Ok(count)
    }

    // Appends the count line of `given`, with the counts `figure`, to `out`. Out of memory leaves `out` unchanged.
    fn print(
        &mut self,
        given: &MapRecord<'_>,
        figure: &EulerCount,
        out: &mut Vec<u8>,
    ) -> Result<(), AllocError> {
        let line = count_line(self.alloc, given.number, figure)?;
        out.extend_from_slice(&line)
    }

    // Drops the counts.
    fn keep(&mut self, _figure: EulerCount) {}

    // Does nothing. Its contract: no map is both served and refused, and each breaks one condition first.
    fn lawful() {}
}
