ghost use Rattle.std.specs.Prelude.{◌≡◌, ◌++◌, IfOk, OnOk, OnErr, IsTrue};
ghost use Rattle.std.specs.List.{list_all};
ghost use Rattle.std.specs.Option.{option_copied};
ghost use Rattle.subject_transform.specs.Domains.{crosses};
ghost use Rattle.interest_list.specs.Lists.{no_interest};
ghost use Rattle.interest_list.specs.Targets.{targets};
ghost use Rattle.interest_list.specs.Tellings.{told, news, informed};
ghost use Rattle.interest_list.specs.Changes.{Answers, MayAnswer, refusal, after, is_weight, has_weight, first_refusal, after_all, all_news, all_informed};
ghost use Rattle.interest_list.specs.declared.change.Change.TheVariants.{Add as Adds, Remove as Removes, LinkOn as LinksOn, LinkOff as LinksOff, InnerOn as InnersOn, InnerOff as InnersOff, DropConn as DropsConn};

use crate::{
    CameFrom, Carrier, Change, InterestFault, Subscription, Target, Told, ToldTo, kept, targets,
    tellings,
};
use leaf_frames::LeafFrame;
use nats_text::{Bytes, List, NoMemory, Pattern, Subject};
use std::alloc::Global;
use std::marker::Model;
use subject_transform::DomainMap;

/// The subscriptions of a node's clients, of its links and of itself, and what each link was told of them.
///
/// It is the plain list of the definitions: each call looks at all subscriptions.
#[derive(Drop)]
pub struct InterestList {
    alloc: Global,
    domain: DomainMap,
    subs: Vec<Subscription>,
    told_to: Vec<ToldTo>,
}

impl Model for InterestList {
    ghost use Rattle.interest_list.specs.Lists.{Interests};

    ghost Value = { Interests };

    ghost view = { λ it. record { subs = it.subs.items; told_to = it.told_to.items } };
}

impl InterestList {
    /// Nobody wants anything yet. It takes no memory.
    pub fn new(alloc: Global, domain: DomainMap) -> InterestList
        ensures { result ≡ no_interest }
    {
        InterestList {
            alloc,
            domain,
            subs: Vec::new(alloc),
            told_to: Vec::new(alloc),
        }
    }

    /// A client subscribes (SUB of the NATS client protocol). `SidTaken` comes exactly where its connection
    /// has a subscription of that number, and else `TooMany` exactly where 65,536 subscriptions stand.
    pub fn add(
        &mut self,
        conn: u64,
        sid: Bytes,
        pattern: Pattern,
        queue: Option<Bytes>,
    ) -> Result<(), InterestFault>
        ensures answer { Answers (refusal (Adds conn sid pattern queue) self.old.subs) result }
        ensures ok { OnOk result (self.new ≡ after (Adds conn sid pattern queue) self.old) }
        ensures err { OnErr result (self.new ≡ self.old) }
    {
        kept::add(&mut self.subs, conn, sid, pattern, queue)
    }

    /// A client ends a subscription (UNSUB). `NoSid` comes exactly where its connection has none of that number.
    pub fn remove(&mut self, conn: u64, sid: &[u8]) -> Result<(), InterestFault>
        ensures answer { Answers (refusal (Removes conn sid.now) self.old.subs) result }
        ensures ok { OnOk result (self.new ≡ after (Removes conn sid.now) self.old) }
        ensures err { OnErr result (self.new ≡ self.old) }
    {
        kept::remove(&mut self.subs, conn, sid)
    }

    /// A link wants messages of a pattern (LS+ of a leaf link), by all or by a group of this weight, which
    /// replaces the one that it had. `TooMany` comes exactly where it had none and 65,536 subscriptions
    /// stand.
    pub fn link_on(
        &mut self,
        conn: u64,
        pattern: Pattern,
        queue: Option<Bytes>,
        weight: u32,
    ) -> Result<(), InterestFault>
        requires { IsTrue (is_weight weight) }
        ensures answer { Answers (refusal (LinksOn conn pattern queue weight) self.old.subs) result }
        ensures ok { OnOk result (self.new ≡ after (LinksOn conn pattern queue weight) self.old) }
        ensures err { OnErr result (self.new ≡ self.old) }
    {
        kept::link_on(&mut self.subs, conn, pattern, queue, weight)
    }

    /// A link doesn't want messages of a pattern any more (LS-), by all or by a group. `NoSid` comes exactly
    /// where it didn't.
    pub fn link_off(
        &mut self,
        conn: u64,
        pattern: &Pattern,
        queue: Option<&[u8]>,
    ) -> Result<(), InterestFault>
        ensures answer { Answers (refusal (LinksOff conn pattern.now (option_copied queue.entry)) self.old.subs) result }
        ensures ok { OnOk result (self.new ≡ after (LinksOff conn pattern.now (option_copied queue.entry)) self.old) }
        ensures err { OnErr result (self.new ≡ self.old) }
    {
        kept::link_off(&mut self.subs, conn, pattern, queue)
    }

    /// The node itself wants messages of a pattern; where it does already, nothing changes. `TooMany` comes
    /// exactly where it didn't and 65,536 subscriptions stand.
    pub fn inner_on(&mut self, pattern: Pattern) -> Result<(), InterestFault>
        ensures answer { Answers (refusal (InnersOn pattern) self.old.subs) result }
        ensures ok { OnOk result (self.new ≡ after (InnersOn pattern) self.old) }
        ensures err { OnErr result (self.new ≡ self.old) }
    {
        kept::inner_on(&mut self.subs, pattern)
    }

    /// The node itself doesn't want messages of a pattern any more. `NoSid` comes exactly where it didn't.
    pub fn inner_off(&mut self, pattern: &Pattern) -> Result<(), InterestFault>
        ensures answer { Answers (refusal (InnersOff pattern.now) self.old.subs) result }
        ensures ok { OnOk result (self.new ≡ after (InnersOff pattern.now) self.old) }
        ensures err { OnErr result (self.new ≡ self.old) }
    {
        kept::inner_off(&mut self.subs, pattern)
    }

    /// A connection is gone, with all that it wanted and all that it was told. It takes no memory.
    pub fn drop_conn(&mut self, conn: u64)
        ensures { self.new ≡ after (DropsConn conn) self.old }
    {
        kept::drop_conn(&mut self.subs, conn);
        kept::forget(&mut self.told_to, conn);
    }

    /// Who gets a message: each client with a plain subscription that matches, one member of each group, each
    /// link once with the groups for which it was chosen, and the node itself. Where groups are given, only
    /// these are served. `pick` is any number, which chooses the members: each as often as its weight says.
    pub fn targets(
        &self,
        subject: &Subject,
        from: CameFrom,
        groups: Option<&List<Bytes>>,
        pick: u64,
    ) -> Result<List<Target>, NoMemory>
        ensures { IfOk result (λ it. it ≡ targets self.now.subs subject.now from (option_copied groups.entry) pick) }
    {
        let outward = self.crosses(subject)?;
        let live = targets::live(self.alloc, &self.subs, subject, outward, from)?;
        let served = targets::served(self.alloc, &live, groups, pick)?;
        targets::holders(self.alloc, &served)
    }

    /// What a link is to be told: each pattern and queue that crosses to other nodes and that others than this
    /// link want, in byte order, with the weight of the group.
    pub fn told(&self, link: u64) -> Result<List<Told>, NoMemory>
        ensures { IfOk result (λ it. it ≡ told link self.now.subs) }
    {
        let told = tellings::told(self.alloc, &self.domain, &self.subs, link)?;
        Ok(List::from_vec(told))
    }

    /// The frames that tell a link what has changed since it was told last: LS- for each pair that is gone, then
    /// LS+ for each that is new or has another weight. Without memory it counts as not told.
    pub fn changes_for(&mut self, link: u64) -> Result<List<LeafFrame>, NoMemory>
        ensures frames { IfOk result (λ it. it ≡ news link self.old) }
        ensures ok { OnOk result (self.new ≡ informed link self.old) }
        ensures err { OnErr result (self.new ≡ self.old) }
    {
        tellings::inform(
            self.alloc,
            &self.domain,
            &self.subs,
            &mut self.told_to,
            link,
        )
    }

    /// Makes these changes, one after another, and adds behind `first` the frames that tell each of these links
    /// what has changed since it was told last, link by link. The answer is the refusal of the first change
    /// that is refused, or want of memory. After any refusal nothing has changed, nobody was told anything,
    /// and `first` is let go.
    pub fn change<P: Carrier>(
        &mut self,
        changes: List<Change>,
        links: &List<u64>,
        first: List<P>,
    ) -> Result<List<P>, InterestFault>
        requires { IsTrue (list_all has_weight changes) }
        ensures answer { MayAnswer (first_refusal changes self.old.subs) result }
        ensures frames { IfOk result (λ it. it ≡ first ++ all_news P.carried links.now (after_all changes self.old)) }
        ensures ok { OnOk result (self.new ≡ all_informed links.now (after_all changes self.old)) }
        ensures err { OnErr result (self.new ≡ self.old) }
    {
        let mut subs = kept::copied_list(&self.subs)?;
        let mut told_to = kept::copied_told(self.alloc, &self.told_to)?;
        kept::make(&mut subs, &mut told_to, changes)?;
        let frames = tellings::inform_all(
            self.alloc,
            &self.domain,
            &subs,
            &mut told_to,
            links,
            first,
        )?;
        self.subs = subs;
        self.told_to = told_to;
        Ok(frames)
    }

    // Whether a message of this subject goes to links.
    fn crosses(&self, subject: &Subject) -> Result<bool, NoMemory>
        ensures { IfOk result (λ it. it ≡ crosses subject.now) }
    {
        let pattern = Pattern::of_subject(subject.clone()?);
        Ok(self.domain.crosses(&pattern))
    }
}
