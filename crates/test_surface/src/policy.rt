//! Rules, decisions and the plain registry.

use reg_body::Limits;
use reg_names::{CrateName, Pattern};
use reg_policy::{
    Action, AdminCommand, AdminRefusal, AdminReply, Answer, Asked, Decision, Endpoint, Endpoints,
    Event, NewPublication, OwnerEntry, OwnerRow, Reading, Rows, Rule, TokenFacts,
};
use reg_reference::PlainRegistry;
use std::alloc::Global;

const _: [Endpoint; 4] = [
    Endpoint::PublishNew,
    Endpoint::PublishUpdate,
    Endpoint::Yank,
    Endpoint::ChangeOwners,
];

const _: [Action<'static>; 6] = [
    Action::Read,
    Action::Index(""),
    Action::Download("", ""),
    Action::ListOwners(""),
    Action::Yank("", ""),
    Action::Unyank("", ""),
];

const _: [Decision; 2] = [Decision::Allowed, Decision::Denied(Rule::A1)];

const _: [Rule; 35] = [
    Rule::H1,
    Rule::H2,
    Rule::H3,
    Rule::H4,
    Rule::H5,
    Rule::H6,
    Rule::H7,
    Rule::A1,
    Rule::A2,
    Rule::A3,
    Rule::A4,
    Rule::A6,
    Rule::A7,
    Rule::A8,
    Rule::A9,
    Rule::A10,
    Rule::B1,
    Rule::B2,
    Rule::B3,
    Rule::B4,
    Rule::B5,
    Rule::N1,
    Rule::N2,
    Rule::N3,
    Rule::V1,
    Rule::V2,
    Rule::M1,
    Rule::L1,
    Rule::L2,
    Rule::O1,
    Rule::O2,
    Rule::O3,
    Rule::O4,
    Rule::Q1,
    Rule::S1,
];

const _: TokenFacts = TokenFacts {
    account: 0u32,
    live: true,
    endpoints: Endpoints {
        publish_new: true,
        publish_update: true,
        yank: true,
        change_owners: true,
    },
};

const _: OwnerRow<'static> = OwnerRow {
    id: 0u32,
    login: "",
};

const _: [AdminCommand<'static>; 16] = [
    AdminCommand::UserAdd("", Some("")),
    AdminCommand::UserDisable(""),
    AdminCommand::UserEnable(""),
    AdminCommand::TokenAdd("", &[""], &[""], &[0; 32]),
    AdminCommand::TokenRevoke(0),
    AdminCommand::Reserve(""),
    AdminCommand::Unreserve(""),
    AdminCommand::OwnerAdd("", ""),
    AdminCommand::Access(""),
    AdminCommand::Users,
    AdminCommand::Tokens,
    AdminCommand::Crates,
    AdminCommand::CrateRestrict(""),
    AdminCommand::CrateOpen(""),
    AdminCommand::ReaderAdd("", ""),
    AdminCommand::ReaderRemove("", ""),
];

const _: [AdminRefusal; 10] = [
    AdminRefusal::G1,
    AdminRefusal::G2,
    AdminRefusal::G3,
    AdminRefusal::G4,
    AdminRefusal::G5,
    AdminRefusal::G6,
    AdminRefusal::G7,
    AdminRefusal::G8,
    AdminRefusal::G9,
    AdminRefusal::G10,
];

const _: [AdminReply; 2] = [AdminReply::Done, AdminReply::Id(0)];

const _: fn(String) -> AdminReply = AdminReply::Text;

const _: [Event<'static>; 4] = [
    Event::Ask(None, Asked::Malformed(Rule::B1)),
    Event::Ask(Some(&[0; 32]), Asked::Read(Reading::Config)),
    Event::Ask(Some(&[0; 32]), Asked::Read(Reading::Search("", 0u32))),
    Event::Order(AdminCommand::Users),
];

const _: fn(Rule) -> Answer = Answer::Denied;

const _: fn(Vec<u8>) -> Answer = Answer::File;

const _: fn(Vec<u8>) -> Answer = Answer::Archive;

const _: fn(Vec<OwnerEntry>) -> Answer = Answer::Owners;

const _: fn(AdminRefusal) -> Answer = Answer::Refused;

const _: fn(AdminReply) -> Answer = Answer::Replied;

const _: fn(&Rows, &Action) -> Decision = reg_policy::decide;

const _: fn(Rule) -> u16 = reg_policy::rule_status;

const _: fn(Rule) -> &'static str = reg_policy::rule_text;

const _: fn(AdminRefusal) -> &'static str = reg_policy::admin_text;

const _: fn() = reg_model::laws::run_law;

const _: fn() = reg_model::laws::growth_law;

const _: fn() = reg_model::laws::grant_law;

const _: fn() = reg_model::laws::sight_law;

const _: fn() = reg_model::laws::plain_law;

const _: fn() = reg_model::laws::wider_law;

fn call_methods(
    alloc: Global,
    name: &CrateName,
    patterns: &[Pattern],
    owners: &[OwnerRow<'_>],
    event: &Event<'_>,
    registry: &mut PlainRegistry,
) {
    return;
    let _ = Action::Publish(name, "");
    let _ = Rows {
        token: None::<TokenFacts>,
        enabled: false,
        patterns,
        first: Some(name),
        owners,
        versions: &[""],
        reserved: false,
        restricted: false,
        readers: &[0u32],
        crates: 0u64,
        known: &[false],
        limits: &Limits::STANDARD,
    };
    let _ = Action::AddOwners("", &[]);
    let _ = Action::RemoveOwners("", &[]);
    let _ = Asked::Publish(NewPublication {
        name: name.copy(),
        version: String::new(alloc),
        description: Some(String::new(alloc)),
        stem: Vec::<u8>::new(alloc),
        digest: [0u8; 32],
        archive: b"",
    });
    let _: PlainRegistry = PlainRegistry::new(alloc, Limits::STANDARD);
    let _: Answer = PlainRegistry::step(registry, event);
}
