//! Traces the branch vertices and paths of a subdivision of K5 or K3,3, and returns them as a witness.
use kuratowski::{Kind, Witness};
use left_right_test::{ByVertex, Links, NONE, VERTEX_ZEROS, ends_of, plus};
use map_lists::{PathList, VertexId, VertexList};
use std::alloc::{AllocError, Global};
use std::mem;

// Converts `vertex` to an id.
fn vertex_id(vertex: u32) -> VertexId {
    VertexId((vertex & 0xffff) as u16)
}

// Returns the dart that continues a path after `dart`, whose head has two darts.
#[inline(always)]
fn dart_on(links: &Links, dart: u32) -> u32 {
    let first = links.first.get(links.head.get(dart));
    if first == dart ^ 1 {
        links.next.get(first)
    } else {
        first
    }
}

// The branch vertices of a subdivision, at which paths meet.
#[derive(Clone, Copy)]
struct Branches {
    // the vertices, by index
    vertices: ByVertex,
    // for each of them its index
    places: ByVertex,
    // how many there are
    count: u32,
}

impl Branches {
    // The empty list of branch vertices.
    const FRESH: Branches = Branches {
        vertices: VERTEX_ZEROS,
        places: VERTEX_ZEROS,
        count: 0,
    };

    // Makes `vertex` the branch vertex at index `place`.
    #[inline(always)]
    fn put(&mut self, place: u32, vertex: u32) {
        self.vertices.set(place, vertex);
        self.places.set(vertex, place);
    }

    // Replaces the branch vertices by the vertices of `links` with a degree above two, in rising order.
    fn take(&mut self, links: &Links) {
        self.count = 0;
        for vertex in 0..links.vertices {
            if links.degree.get(vertex) > 2 {
                self.put(self.count, vertex);
                self.count = plus(self.count, 1);
            }
        }
    }

    // Returns for each branch index from `from` on the first dart of a path to that branch vertex from the one at
    // `place`. All other entries are `NONE`. A path goes on over vertices of degree two.
    fn darts_from(&self, links: &Links, place: u32, from: u32) -> [u32; 8] {
        let mut found = [NONE; 8];
        let vertex = self.vertices.get(place);
        let mut dart = links.first.get(vertex);
        for _ in 0..links.degree.get(vertex) {
            let mut last = dart;
            for _ in 0..links.vertices {
                if links.degree.get(links.head.get(last)) != 2 {
                    break;
                }
                last = dart_on(links, last);
            }
            let end = links.head.get(last);
            let place = self.places.get(end);
            let is_there = from <= place && place < self.count && self.vertices.get(place) == end;
            if is_there && found[place as usize % 8] == NONE {
                found[place as usize % 8] = dart;
            }
            dart = links.next.get(dart);
        }
        found
    }

    // Replaces the branch vertices by the six of `others`, sorted by sides of K3,3: first those that no path of `links`
    // joins to the first one.
    fn take_in_parts(&mut self, links: &Links, others: &Branches) {
        self.count = 6;
        let darts = others.darts_from(links, 0, 0);
        let mut near = 0u32;
        let mut far = 3u32;
        for i in 0..6u32 {
            let vertex = others.vertices.get(i);
            if darts[i as usize % 8] == NONE {
                self.put(near, vertex);
                near = plus(near, 1);
            } else {
                self.put(far, vertex);
                far = plus(far, 1);
            }
        }
    }

    // Returns the branch vertices as a list, in the memory of `spent`. It fails only when out of memory.
    fn list(&self, spent: VertexList) -> Result<VertexList, AllocError> {
        let mut list = spent.emptied(self.count as usize)?;
        for place in 0..self.count {
            list.push(vertex_id(self.vertices.get(place)))?;
        }
        Ok(list)
    }
}

// The paths of a subdivision, concatenated.
#[derive(Clone, Copy)]
struct Ways {
    // the vertices of all of them
    cells: [u16; 512],
    count: usize,
    // for each path the index after its last vertex
    ends: ByVertex,
    // how many paths there are
    paths: u32,
}

impl Ways {
    // No paths.
    const FRESH: Ways = Ways {
        cells: [0; 512],
        count: 0,
        ends: VERTEX_ZEROS,
        paths: 0,
    };

    // Appends `vertex` to the last path.
    #[inline(always)]
    fn push(&mut self, vertex: u32) {
        self.cells[self.count % 512] = (vertex & 0xffff) as u16;
        self.count = self.count % 512 + 1;
    }

    // Returns the concatenated vertices of all paths.
    #[inline(always)]
    fn vertices(&self) -> &[u16] {
        if self.count < 512 {
            &self.cells[..self.count]
        } else {
            &self.cells
        }
    }

    // Appends the path that begins with `dart` and goes on over vertices of degree two to a branch vertex.
    fn follow(&mut self, links: &Links, dart: u32) {
        self.push(links.tail(dart));
        let mut dart = dart;
        for _ in 0..links.vertices {
            let head = links.head.get(dart);
            self.push(head);
            if links.degree.get(head) != 2 {
                break;
            }
            dart = dart_on(links, dart);
        }
        self.ends.set(self.paths, (self.count & 0xffff) as u32);
        self.paths = plus(self.paths, 1);
    }

    // Replaces the paths by those of `links` between `branches`, one for each pair that a subdivision of `kind` joins,
    // in order. Returns false where one is missing.
    fn take(&mut self, links: &Links, branches: &Branches, kind: Kind) -> bool {
        self.count = 0;
        self.paths = 0;
        let starts = match kind {
            Kind::K5 => 4u32,
            Kind::K33 => 3u32,
        };
        for i in 0..starts {
            let from = match kind {
                Kind::K5 => i + 1,
                Kind::K33 => 3,
            };
            let darts = branches.darts_from(links, i, from);
            for place in from..branches.count {
                let dart = darts[place as usize % 8];
                if dart == NONE {
                    return false;
                }
                self.follow(links, dart);
            }
        }
        true
    }

    // Returns the paths as a list, in the memory of `spent`. It fails only when out of memory.
    fn list(&self, spent: PathList) -> Result<PathList, AllocError> {
        let (mut entries, spent_ends) = spent.into_parts();
        entries.clear();
        for vertex in self.vertices() {
            entries.push(VertexId(*vertex))?;
        }
        let count = (self.paths & 0xff) as u16;
        let ends = ends_of(&self.ends, spent_ends, count, entries.len())?;
        Ok(PathList::from_parts(entries, ends))
    }
}

/// The tables by which witnesses are traced.
#[derive(Clone, Copy)]
pub struct Tracer {
    branches: Branches,
    // those of K3,3 in two parts
    parted: Branches,
    ways: Ways,
}

impl Tracer {
    /// The tables before the first witness.
    pub const FRESH: Tracer = Tracer {
        branches: Branches::FRESH,
        parted: Branches::FRESH,
        ways: Ways::FRESH,
    };

    /// Returns the witness that the edges of `links` seem to be, not checked. Returns None unless there are five or six
    /// branch vertices and no path is missing. `spent` is a witness no longer needed, whose memory it takes. It fails
    /// only when out of memory.
    pub fn traced(
        &mut self,
        alloc: Global,
        links: &Links,
        spent: &mut Option<Witness>,
    ) -> Result<Option<Witness>, AllocError> {
        self.branches.take(links);
        match self.branches.count {
            5 => {
                let spent = taken(alloc, spent, links, Kind::K5)?;
                filled(links, &mut self.ways, &self.branches, spent)
            }
            6 => {
                self.parted.take_in_parts(links, &self.branches);
                let spent = taken(alloc, spent, links, Kind::K33)?;
                filled(links, &mut self.ways, &self.parted, spent)
            }
            _ => Ok(None),
        }
    }
}

// Returns a witness of `kind`, to be overwritten: `spent`, or else a new one with room for the paths of `links`. Fails
// only when out of memory.
fn taken(
    alloc: Global,
    spent: &mut Option<Witness>,
    links: &Links,
    kind: Kind,
) -> Result<Witness, AllocError> {
    match mem::replace(spent, None) {
        Some(witness) => {
            let Witness { branch, paths, .. } = witness;
            Ok(Witness {
                kind,
                branch,
                paths,
            })
        }
        None => {
            let room = plus(links.vertices, 20) as usize;
            let paths = PathList::with_capacity(alloc, room, 10)?;
            Ok(Witness {
                kind,
                branch: VertexList::new(alloc),
                paths,
            })
        }
    }
}

// Returns the witness with these `branches` and the paths of `links` between them, of the kind and in the memory of
// `spent`. Returns None where a path is missing. `ways` is scratch space. It fails only when out of memory.
fn filled(
    links: &Links,
    ways: &mut Ways,
    branches: &Branches,
    spent: Witness,
) -> Result<Option<Witness>, AllocError> {
    let Witness {
        kind,
        branch,
        paths,
    } = spent;
    if !ways.take(links, branches, kind) {
        return Ok(None);
    }
    let branch = branches.list(branch)?;
    let paths = ways.list(paths)?;
    Ok(Some(Witness {
        kind,
        branch,
        paths,
    }))
}
