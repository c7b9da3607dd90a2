// What the help of each command teaches.

// What standard input has to hold.
pub(crate) const INPUT: &str = "\
Standard input has a transaction a line: the origin, the transaction number and the body, with one space between.
For each line the status and the body of the reply are printed. A repeat of a number gets the reply that it got.
Every signature that decodes is trusted: this shows an inbox and gives no security. To try it, paste

    a.example 7-1 {\"origin\":\"a.example\",\"origin_server_ts\":1,\"pdus\":[]}
";

// What a script has to hold.
pub(crate) const SCRIPT: &str = "\
A script has a command a line, with one space between its words. A line that begins with # is skipped.
The script is read to its end, and then a line is printed for each command when it is done. A wrong line is told by its number, and then
nothing is run.

First come the servers, then the rooms that stand on all of them, each with an id and its users:

    servers <name>..
    room <id> <user>..

A user sends an event, or a server an ephemeral data unit. A key is - for none, or = and the state key:

    send <server> <room> <sender> <type> <key> <content>
    edu <server> <type> <servers with commas> <content>

What is sent waits for each destination. It is collected into the outbox and cut into transactions. A transaction is posted as a packet,
which may arrive once, again or never. What arrives is answered by another packet. Events that came wait to be applied to their room:

    collect <server> <dest>
    cut <server> <dest>
    post <server> <dest>
    arrive <packet>
    answer <packet>
    apply <server> <room>

Sending may fail, time goes by, and an outbox may be closed:

    failed <server> <dest>
    tick <milliseconds>
    close <server> <dest>

In a round of calm all that waits is sent and applied, and nothing is lost. show tells how many events and ephemeral data units a server
took from another one, and how many of them that one counts as delivered:

    calm <rounds>
    show <server> <origin>

No signature here gives security. To try it, paste

    servers a b
    room !r:a @u:a @v:b
    send a !r:a @u:a m.room.topic = {\"topic\":\"x\"}
    collect a b
    cut a b
    post a b
    failed a b
    tick 1000
    post a b
    arrive 2
    answer 3
    show b a
    apply b !r:a
    send b !r:a @v:b m.x - {}
    edu b m.x a {}
    calm 1
    show a b
";

// What the two servers do.
pub(crate) const LOOP: &str = "\
The servers a.example and b.example run in one process, each with its threads, and have one room with a user of each. Clients at a.example
send events, which go to b.example over the loopback interface, a connection for each transaction. Then three lines are printed:

    sent <n>        how many events a.example offered
    taken <n>       how many of them b.example took
    delivered <n>   how many of them count as delivered at a.example
";
