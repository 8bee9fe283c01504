//! A replica that answers requests, with what is cut off of its items, and its last reply.

ghost use Rattle.std.specs.Prelude.{◌≡◌, ◌≢◌, [], true, Ok, IfOk, IfErr, OnOk, OnErr};
ghost use Rattle.std.specs.Option.{option_copied};
ghost use Rattle.hk_types.specs.FaultNumbers.{refusal_number};
ghost use Rattle.hk_model.specs.Replica.Answers.{answer_seen, One, Rows, Number};
ghost use Rattle.hk_model.specs.declared.query.Query.TheVariants.{Get, Count};
ghost use Rattle.hk_session_parts.specs.declared.ended.Ended.TheVariants.{ReadFault};
ghost use Rattle.hk_handle.specs.Calls.{Answered, IsNew, Lists, NotOpened, WhyNot, asked_reply, asks_rows};

use crate::listing::put_rows;
use hk_codec::Feeder;
use hk_log::Item;
use hk_model::{Answer, Query};
use hk_query::{ask, row_at};
use hk_session::serve_bytes;
use hk_session_parts::{Counted, Ended};
use hk_state::ReplicaState;
use hk_state_host::StateHost;
use hk_types::{Config, Key, Refusal, Row, Table, Time};
use std::alloc::Global;
use std::marker::Model;

/// A replica that answers requests, with what is cut off of its items, and its last reply.
#[derive(Drop)]
pub struct Replica {
    pub(crate) host: StateHost,
    pub(crate) feeder: Feeder,
    reply: Vec<u8>,
    /// A list for the next items, with nothing in it that counts.
    pub(crate) items: Vec<Item>,
}

impl Model for Replica {
    ghost use Rattle.hk_handle.specs.Values.{ReplicaValue, replica_code};

    ghost Value = { ReplicaValue };

    ghost coded = { replica_code };

    ghost view = { λ r. record { host = r.host; rest = r.feeder; reply = r.reply.items } };
}

impl Replica {
    /// A replica of this log, that has applied no item.
    pub fn new(alloc: Global, log: u64, streams: u16) -> Result<Replica, Refusal>
        ensures ok { IfOk result (λ r. IsNew r log streams) }
        ensures err { IfErr result (λ why. NotOpened log streams (refusal_number why)) }
    {
        let config = Config::new(log, streams)?;
        let state = ReplicaState::new(alloc, config)?;
        Ok(Replica {
            host: StateHost::new(alloc, state),
            feeder: Feeder::new(alloc),
            reply: Vec::new(alloc),
            items: Vec::new(alloc),
        })
    }

    /// Answers these requests, one after the other, and keeps the replies.
    pub(crate) fn answer(&mut self, alloc: Global, requests: &[u8]) -> Ended
        ensures answered { Answered self.old self.new requests.now result }
        ensures reads { result ≢ ReadFault }
        ensures fed { self.new.rest ≡ self.old.rest }
    {
        let mut writer = Counted::new(Vec::new(alloc));
        let ended = serve_bytes::<1, _, _>(alloc, requests, &mut writer, &mut self.host);
        self.reply = writer.into_inner();
        ended
    }

    /// What is answered to a query at a time.
    fn ask(&self, alloc: Global, time: u64, query: &Query) -> Result<Answer, Refusal>
        ensures ok { IfOk result (λ a. asked_reply self.now.host.content time query.now ≡ Ok (answer_seen a)) }
        ensures err { IfErr result (WhyNot self.now.host.content time query.now) }
    {
        let time = Time::new(time)?;
        ask(alloc, self.host.state(), time, query)
    }

    /// The row of a table at a key at a time, lent.
    pub(crate) fn get(&self, time: u64, table: Table, key: Key) -> Result<Option<&Row>, Refusal>
        ensures ok { IfOk result (λ row. asked_reply self.now.host.content time (Get table key) ≡ Ok (One (option_copied row))) }
        ensures err { IfErr result (WhyNot self.now.host.content time (Get table key)) }
    {
        let time = Time::new(time)?;
        row_at(self.host.state(), time, table, key)
    }

    /// How many rows a table has at a time.
    pub fn count(&self, alloc: Global, time: u64, table: Table) -> Result<u64, Refusal>
        ensures ok { IfOk result (λ n. asked_reply self.now.host.content time (Count table) ≡ Ok (Number n)) }
        ensures err { IfErr result (WhyNot self.now.host.content time (Count table)) }
    {
        match self.ask(alloc, time, &Query::Count { table })? {
            Answer::Number(n) => Ok(n),
            // A count is answered with a number.
            Answer::One(_) | Answer::Rows(_) => Err(Refusal::Memory),
        }
    }

    /// The rows that are answered to a query for rows at a time.
    pub(crate) fn rows(
        &self,
        alloc: Global,
        time: u64,
        query: &Query,
    ) -> Result<Vec<(Key, Row)>, Refusal>
        requires { asks_rows query.now ≡ true }
        ensures ok { IfOk result (λ rows. asked_reply self.now.host.content time query.now ≡ Ok (Rows rows.items)) }
        ensures err { IfErr result (WhyNot self.now.host.content time query.now) }
    {
        match self.ask(alloc, time, query)? {
            Answer::Rows(rows) => Ok(rows),
            // Such a query is answered with rows.
            Answer::One(_) | Answer::Number(_) => Err(Refusal::Memory),
        }
    }

    /// Keeps the text of the rows that are answered to a query for rows, from a key on.
    pub(crate) fn list(
        &mut self,
        alloc: Global,
        time: u64,
        query: &Query,
        low: Key,
    ) -> Result<(), Refusal>
        requires { asks_rows query.now ≡ true }
        ensures ok { OnOk result (Lists self.old self.new time query.now low) }
        ensures err { IfErr result (WhyNot self.old.host.content time query.now) }
        ensures kept { OnErr result (self.new ≡ self.old) }
    {
        let rows = self.rows(alloc, time, query)?;
        let mut text = Vec::new(alloc);
        put_rows(&mut text, &rows, low)?;
        self.reply = text;
        Ok(())
    }

    /// Keeps a text in the place of the last reply.
    pub(crate) fn keep(&mut self, text: Vec<u8>)
        ensures { self.new ≡ record self.old { reply = text.items } }
    {
        self.reply = text;
    }

    /// The replies to the last requests, or the text of the last rows.
    pub(crate) fn reply(&self) -> &[u8]
        ensures { result.now ≡ self.now.reply }
    {
        self.reply.as_slice()
    }
}
