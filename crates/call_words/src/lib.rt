// The words beside an image that a C function is handed: the rooms of a call, and what a cut is asked.
#![tactic(auto)]

ghost use Rattle.std.specs.Prelude.{◌≡◌, length};
ghost use Rattle.mesh_calls.specs.declared.Job.TheVariants.{Cut};
ghost use Rattle.image.specs.Words.{number_of};
ghost use Rattle.reading_replies.specs.Replies.{point_at_of};
ghost use Rattle.call_words.specs.Rooms.{Limited, rooms_given, rooms_too, lacks_room_of};

use mesh::Rooms;
use mesh::refusals::Refusal;
use mesh_calls::Job;
use refusal_numbers::Tells;

// The rooms that four words and so many log bytes are; other bytes are none.
pub fn rooms_in(rooms: &[u8], logged: usize) -> Rooms
    ensures { Limited result logged × (length rooms.now ≡ 16 → result ≡ rooms_given rooms.now logged) }
{
    if rooms.len() != 16 {
        return Rooms {
            particles: 0,
            triangles: 0,
            edges: 0,
            boundary: 0,
            log: 0,
        };
    }
    Rooms {
        particles: mesh::whole::least(mesh::PARTICLES, image::word_at(rooms, 0)),
        triangles: mesh::whole::least(mesh::TRIANGLES, image::word_at(rooms, 1)),
        edges: mesh::whole::least(mesh::EDGES, image::word_at(rooms, 2)),
        boundary: mesh::whole::least(mesh::BOUNDARY, image::word_at(rooms, 3)),
        log: mesh::whole::least(mesh::ENTRIES, logged / 24),
    }
}

// The refusal of a job, where the rooms are four words; other rooms are a bad argument, 4, which comes behind 1 to 3 and before the rest.
pub fn with_rooms<F: Tells>(fault: F, sixteen: bool) -> F
    ensures { F.told result ≡ rooms_too (F.told fault) sixteen }
{
    if sixteen {
        return fault;
    }
    let number = fault.tell();
    if number == 0 {
        return F::refuse(Refusal::Argument);
    }
    if number < 4 {
        fault
    } else {
        F::refuse(Refusal::Argument)
    }
}

// Does a refusal say that a room lacks?
pub fn lacks_room(code: u32) -> bool
    ensures { result ≡ lacks_room_of code }
{
    judge::tests::both(5 <= code, code <= 8)
}

// The cut in an edition along a blade of four words, with the insertion fraction of a word.
pub fn cut_job(blade: &[u8], edition: u32, fraction: u32) -> Job
    requires { length blade.now ≡ 16 }
    ensures { result ≡ Cut edition (point_at_of blade.now 0) (point_at_of blade.now 2) (number_of fraction) }
{
    let b0 = reading_replies::leaves::point_at(blade, 0);
    let b1 = reading_replies::leaves::point_at(blade, 2);
    let f = image::number_of(fraction as usize);
    Job::Cut(edition as usize, b0, b1, f)
}
