// What rule 4 makes of a member event, by the membership that it gives.
ghost use Rattle.std.specs.Prelude.{◌≡◌};
ghost use Rattle.fed_auth.specs.Table.{decide};

use crate::join_rule::JoinRule;
use crate::level::Level;
use crate::membership::Membership;
use fed_room_contract::Rule;

/// What the rules on a member event look at, beside the membership that it gives. The target is the user whom its state key names.
#[derive(Clone, Copy)]
pub struct MemberFacts {
    pub sender: Member,
    pub target: Member,
    /// Whether the sender is the target.
    pub is_own: bool,
    /// Whether the creator joins, right behind the create event.
    pub is_first: bool,
    /// Whether a user authorises the join who is joined and has the level to invite.
    pub is_authorised: bool,
    /// Whether the invite comes from a third party.
    pub is_third_party: bool,
    pub join_rule: JoinRule,
    pub needed: ActionLevels,
}

/// What the state says of a user.
#[derive(Clone, Copy)]
pub struct Member {
    pub membership: Membership,
    pub level: Level,
}

/// The levels that it takes to invite, to kick and to ban.
#[derive(Clone, Copy)]
pub struct ActionLevels {
    pub invite: Level,
    pub kick: Level,
    pub ban: Level,
}

impl MemberFacts {
    ghost use Rattle.fed_auth.specs.MemberRules.{table_of, join_table, invite_table, leave_table, ban_table, knock_table};

    /// Whether these facts allow an event that gives its target this membership.
    ///
    /// # Errors
    ///
    /// The rule that rejects it: one of 4.3 to 4.7 by the membership, and 4.8 where it is none of these.
    pub fn allow(self, membership: Membership) -> Result<(), Rule>
        ensures { result ≡ decide (table_of membership self) }
    {
        match membership {
            Membership::Join => self.allow_join(),
            Membership::Invite => self.allow_invite(),
            Membership::Leave => self.allow_leave(),
            Membership::Ban => self.allow_ban(),
            Membership::Knock => self.allow_knock(),
            Membership::Other => Err(Rule::condition(4, 8)),
        }
    }

    #[tactic(auto, unfolding(crate::specs::MemberRules::join_table))]
    fn allow_join(self) -> Result<(), Rule>
        ensures { result ≡ decide (join_table self) }
    {
        if self.is_first {
            return Ok(());
        }
        if !self.is_own {
            return Err(Rule::branch(4, 3, 2));
        }
        if self.sender.membership.is_banned() {
            return Err(Rule::branch(4, 3, 3));
        }
        if self.join_rule.is_invite_or_knock() && self.sender.membership.is_invited_or_joined() {
            return Ok(());
        }
        if self.join_rule.is_restricted() {
            if self.sender.membership.is_invited_or_joined() || self.is_authorised {
                return Ok(());
            }
            return Err(Rule::branch(4, 3, 5));
        }
        if self.join_rule.is_public() {
            return Ok(());
        }
        Err(Rule::branch(4, 3, 7))
    }

    #[tactic(auto, unfolding(crate::specs::MemberRules::invite_table))]
    fn allow_invite(self) -> Result<(), Rule>
        ensures { result ≡ decide (invite_table self) }
    {
        if self.is_third_party {
            return Err(Rule::branch(4, 4, 1));
        }
        if !self.sender.membership.is_joined() {
            return Err(Rule::branch(4, 4, 2));
        }
        if self.target.membership.is_joined() || self.target.membership.is_banned() {
            return Err(Rule::branch(4, 4, 3));
        }
        if self.sender.level >= self.needed.invite {
            return Ok(());
        }
        Err(Rule::branch(4, 4, 5))
    }

    #[tactic(auto, unfolding(crate::specs::MemberRules::leave_table))]
    fn allow_leave(self) -> Result<(), Rule>
        ensures { result ≡ decide (leave_table self) }
    {
        if self.is_own {
            if self.sender.membership.is_invited_or_joined()
                || self.sender.membership.is_knocking()
            {
                return Ok(());
            }
            return Err(Rule::branch(4, 5, 1));
        }
        if !self.sender.membership.is_joined() {
            return Err(Rule::branch(4, 5, 2));
        }
        if self.target.membership.is_banned() && self.sender.level < self.needed.ban {
            return Err(Rule::branch(4, 5, 3));
        }
        if self.sender.level >= self.needed.kick && self.target.level < self.sender.level {
            return Ok(());
        }
        Err(Rule::branch(4, 5, 5))
    }

    #[tactic(auto, unfolding(crate::specs::MemberRules::ban_table))]
    fn allow_ban(self) -> Result<(), Rule>
        ensures { result ≡ decide (ban_table self) }
    {
        if !self.sender.membership.is_joined() {
            return Err(Rule::branch(4, 6, 1));
        }
        if self.sender.level >= self.needed.ban && self.target.level < self.sender.level {
            return Ok(());
        }
        Err(Rule::branch(4, 6, 3))
    }

    #[tactic(auto, unfolding(crate::specs::MemberRules::knock_table))]
    fn allow_knock(self) -> Result<(), Rule>
        ensures { result ≡ decide (knock_table self) }
    {
        if !self.join_rule.may_knock() {
            return Err(Rule::branch(4, 7, 1));
        }
        if !self.is_own {
            return Err(Rule::branch(4, 7, 2));
        }
        if !self.sender.membership.is_banned() && !self.sender.membership.is_invited_or_joined() {
            return Ok(());
        }
        Err(Rule::branch(4, 7, 4))
    }
}
