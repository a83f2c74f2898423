// Particles as a lent run of records: one entry, which tells of one of them whether it is pinned and whether it is damaged.
#![tactic(auto)]

ghost use Rattle.std.specs.Prelude.{◌≡◌, eqb};
ghost use Rattle.std.specs.Float.Ieee.{eq};
ghost use Rattle.float.specs.Numbers.{zero32};
ghost use Rattle.model.specs.Reads.{state_call};
ghost use Rattle.records.specs.State.{state_in, particles_of};

use mesh::refusals::Refusal;

// A particle as one record: position, rest position, mass, inverse mass (0 means pinned), velocity, root, damaged flag.
#[derive(Clone, Copy)]
pub struct Particle {
    pub x: f32,
    pub y: f32,
    pub rest_x: f32,
    pub rest_y: f32,
    pub mass: f32,
    pub inv: f32,
    pub velocity_x: f32,
    pub velocity_y: f32,
    pub root: usize,
    pub damaged: usize,
}

// What is told of a particle: is it pinned, and is it damaged.
#[derive(Clone, Copy)]
pub struct State {
    pub pinned: bool,
    pub damaged: bool,
}

// What a record's inverse mass and damaged flag tell.
fn told(inv: f32, damaged: usize) -> State
    ensures { result ≡ record { pinned = eq inv zero32; damaged = eqb damaged 1 } }
{
    State {
        pinned: inv == 0.0,
        damaged: damaged == 1,
    }
}

// Is particle v pinned, and is it damaged: 4 where there is no such particle.
pub fn particle_state(particles: &[Particle], v: usize) -> Result<State, Refusal>
    ensures { state_in result ≡ state_call (particles_of particles.now) v }
{
    if particles.len() <= v {
        return Err(Refusal::Argument);
    }
    let p = &particles[v];
    Ok(told(p.inv, p.damaged))
}
