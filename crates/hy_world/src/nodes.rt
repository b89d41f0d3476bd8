//! The clients and the honest clouds of a store.

ghost use Rattle.std.specs.Prelude.{◌≡◌, ◌++◌, ◌∷◌, [], length, OnOk};
ghost use Rattle.hy_base.specs.Shape.{IsShape, cloud_count};

use crate::cloud_set::has_cloud;
use crate::seat::Seat;
use hy_base::{NoMemory, cloud_count};
use hy_client::Client;
use hy_cloud::Cloud;
use hy_log::{Beginning, Effects, Post, copy_of_action, posts_of, return_of};
use hy_record::{Action, CloudAsk, CloudReply, Cue};
use hy_sched::Params;
use std::alloc::Global;

/// The clients that joined, and the clouds of the store; a Byzantine one is never asked.
#[derive(Drop)]
pub(crate) struct Nodes {
    pub(crate) params: Params,
    pub(crate) seats: Vec<Seat>,
    pub(crate) clouds: Vec<Cloud>,
    ghost shape: { IsShape params.f params.k },
    ghost one_each: { length clouds.items ≡ cloud_count params.f params.k },
}

impl Nodes {
    ghost use Rattle.std.specs.Prelude.{◌≡◌, false, ◌<◌, ◌≤◌, ◌+◌, ◌^◌, ℕ, List, not, is_some, IfOk, Some};
    ghost use Rattle.std.specs.List.{All};
    ghost use Rattle.hy_base.specs.declared.limits.TheConstants.{MAX_VALUE};
    ghost use Rattle.hy_protocol.specs.Session.{fresh_session};
    ghost use Rattle.hy_trace.specs.declared.step.Step.TheVariants as steps;
    ghost use Rattle.hy_trace.specs.Deeds.{Params as TraceParams, Deed, Nothing, begun, reply_of};
    ghost use Rattle.hy_trace.specs.Messages.{Request};
    ghost use Rattle.hy_trace.specs.Schedule.{hand, delivery, deed_of};
    ghost use Rattle.hy_cloud.specs.Objects.{StandsForWishes};
    ghost use Rattle.hy_world.specs.Schedules.{is_liar_of, params_of};
    ghost use Rattle.hy_world.specs.Seats.{StandsForSeat, value_size};
    ghost use Rattle.hy_world.specs.Nodes.{Does, NodesStand, HasBegunIn};
    ghost use Rattle.hy_world.specs.declared.seat.Seat.{Seat};

    /// Clouds that hold nothing, and no client.
    pub(crate) fn new(alloc: Global, params: Params) -> Result<Nodes, NoMemory>
        requires { IsShape params.f params.k }
        ensures { IfOk result (λ nodes. NodesStand (params_of params) [] nodes) }
    {
        let clouds = Self::empty_clouds(alloc, cloud_count(params.f, params.k))?;
        Ok(Nodes {
            params,
            seats: Vec::new(alloc),
            clouds,
        })
    }

    /// Whether the cloud is Byzantine, or none of the store.
    #[tactic(auto, unfolding(crate::specs::Schedules::is_liar_of))]
    pub(crate) fn is_liar(&self, cloud: u8) -> bool
        ensures { result ≡ is_liar_of self.now.params cloud }
    {
        if cloud >= cloud_count(self.params.f, self.params.k) {
            true
        } else {
            has_cloud(self.params.liars, cloud)
        }
    }

    /// Nothing is done.
    pub(crate) fn rest(&self, alloc: Global) -> Result<Effects, NoMemory>
        ensures { Does (λ p t. Nothing) self.now self.now result }
    {
        Ok(Effects::none(alloc))
    }

    /// A client that was asked nothing takes the next seat.
    pub(crate) fn add(&mut self, number: u32) -> Result<(), NoMemory>
        requires { 1 ≤ number }
        ensures params { self.new.params ≡ self.old.params }
        ensures clouds { self.new.clouds.items ≡ self.old.clouds.items }
        ensures seats { OnOk result ((seat : Seat)
            × StandsForSeat seat (fresh_session self.old.params.f self.old.params.k number)
            × (self.new.seats.items ≡ self.old.seats.items ++ seat ∷ [])) }
    {
        let client = Client::new(number, self.params.f, self.params.k);
        let seat = Seat {
            client,
            number,
            is_stopped: false,
            key: None,
        };
        add_seat(&mut self.seats, seat)?;
        Ok(())
    }

    /// A retransmission timeout of the client.
    #[tactic(auto, unfolding(hy_trace::specs::Schedule::deed_of))]
    pub(crate) fn tick(&mut self, alloc: Global, client: u32) -> Result<Effects, NoMemory>
        ensures { Does (λ p t. deed_of p (steps.Tick client) t) self.old self.new result }
    {
        self.hand(alloc, client, 0, &Cue::Tick)
    }

    /// A Byzantine cloud's answer is delivered.
    pub(crate) fn lie(&mut self, alloc: Global, reply: CloudReply) -> Result<Effects, NoMemory>
        ensures { Does (λ p t. deed_of p (steps.Lie reply) t) self.old self.new result }
    {
        if !self.is_liar(reply.cloud) {
            return self.rest(alloc);
        }
        let client = reply.client;
        self.hand(alloc, client, 0, &Cue::Cloud(reply))
    }

    /// The client crashes.
    pub(crate) fn stop(&mut self, alloc: Global, client: u32) -> Result<Effects, NoMemory>
        ensures { Does (λ p t. deed_of p (steps.Stop client) t) self.old self.new result }
    {
        if client == 0 || client as usize > self.seats.len() {
            return self.rest(alloc);
        }
        self.seats[client as usize - 1].stop();
        Ok(Effects::none(alloc))
    }

    /// The client is asked for an operation.
    pub(crate) fn invoke(
        &mut self,
        alloc: Global,
        client: u32,
        action: &Action,
    ) -> Result<Effects, NoMemory>
        requires { value_size action.now ≤ MAX_VALUE }
        ensures { Does (λ p t.
            deed_of p (steps.Invoke client action.now) t) self.old self.new result }
    {
        if client == 0 || client as usize > self.seats.len() {
            return self.rest(alloc);
        }
        if self.seats[client as usize - 1].begun() == u32::MAX {
            return self.rest(alloc);
        }
        let seat = &mut self.seats[client as usize - 1];
        let sent = seat.begin(alloc, action)?;
        let op = seat.begun();
        match sent {
            Some(outs) => {
                let posts = posts_of(alloc, outs)?;
                let action = copy_of_action(alloc, action)?;
                Ok(Effects {
                    posts,
                    began: Some(Beginning { client, op, action }),
                    returned: None,
                    heard: None,
                    updated: None,
                })
            }
            None => Ok(Effects::none(alloc)),
        }
    }

    /// The client is handed an input, which was made at this step.
    pub(crate) fn hand(
        &mut self,
        alloc: Global,
        client: u32,
        made: u64,
        cue: &Cue,
    ) -> Result<Effects, NoMemory>
        ensures { Does (λ p t. hand p client made cue.now t) self.old self.new result }
    {
        if client == 0 || client as usize > self.seats.len() {
            return self.rest(alloc);
        }
        let seat = &mut self.seats[client as usize - 1];
        let op = seat.begun();
        let heard = seat.hears(client, op, made, cue);
        let turn = seat.hand(alloc, cue)?;
        let outs = turn.sends.into_items();
        let posts = posts_of(alloc, outs)?;
        let returned = return_of(client, op, turn.reply);
        Ok(Effects {
            posts,
            began: None,
            returned,
            heard,
            updated: None,
        })
    }

    /// Whether the last operation of a client that began one has no reply.
    pub(crate) fn awaits_reply(&self, client: u32) -> bool
        ensures { (p : TraceParams) (t : List Deed) → HasBegunIn client t →
            NodesStand p t self.now →
            result ≡ not (is_some (reply_of p client (begun client t) t)) }
    {
        if client == 0 || client as usize > self.seats.len() {
            return false;
        }
        self.seats[client as usize - 1].is_running()
    }

    /// A cloud serves a request, if it is honest.
    pub(crate) fn grant(&mut self, alloc: Global, ask: &CloudAsk) -> Result<Effects, NoMemory>
        ensures { (made : ℕ) → Does (λ p t.
            delivery p t made (Some (Request ask.now))) self.old self.new result }
    {
        if self.is_liar(ask.cloud) {
            return self.rest(alloc);
        }
        let say = self.clouds[ask.cloud as usize].serve(alloc, &ask.wish)?;
        let reply = CloudReply {
            client: ask.client,
            op: ask.op,
            cloud: ask.cloud,
            key: ask.wish.key,
            stamp: ask.wish.stamp,
            say,
        };
        let mut posts = Vec::new(alloc);
        posts.push(Post::Answer(Cue::Cloud(reply)))?;
        Ok(Effects {
            posts,
            began: None,
            returned: None,
            heard: None,
            updated: None,
        })
    }

    /// So many clouds that hold nothing.
    fn empty_clouds(alloc: Global, count: u8) -> Result<Vec<Cloud>, NoMemory>
        ensures count { IfOk result (λ clouds. length clouds.items ≡ count) }
        ensures empty { IfOk result (λ clouds. All (λ cloud.
            StandsForWishes cloud []) clouds.items) }
    {
        let mut clouds = Vec::new(alloc);
        for _i in 0..count {
            let cloud = Cloud::new(alloc)?;
            clouds.push(cloud)?;
        }
        Ok(clouds)
    }
}

/// A client takes the next seat.
fn add_seat(seats: &mut Vec<Seat>, seat: Seat) -> Result<(), NoMemory>
    ensures { OnOk result (seats.new.items ≡ seats.old.items ++ seat ∷ []) }
{
    seats.push(seat)?;
    Ok(())
}
