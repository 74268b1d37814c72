//! A town: shops come and go, streets cross. Functions give its texts, so that no proof but theirs reads them.

/// Its 76 lines, each with an answer: 1,700 bytes.
const TOWN: &[u8] = b"\
layer shops points range near top
layer streets segments stab
add shops 1 100 50 1
add shops 2 200 100 2
add shops 3 300 150 3
add shops 4 400 200 4
add shops 5 500 0 5
add shops 6 600 50 6
add shops 7 700 100 7
add shops 8 800 150 8
add shops 9 900 200 9
add shops 10 1000 0 10
add shops 11 1100 50 11
add shops 12 1200 100 12
add shops 13 1300 150 13
add shops 14 1400 200 14
add shops 15 1500 0 15
add shops 16 1600 50 16
add shops 17 1700 100 17
add shops 18 1800 150 18
add shops 19 1900 200 19
add shops 20 2000 0 20
add shops 21 2100 50 21
add shops 22 2200 100 22
add shops 23 2300 150 23
add shops 24 2400 200 24
add shops 25 2500 0 25
add shops 26 2600 50 26
add shops 27 2700 100 27
add shops 28 2800 150 28
add shops 29 2900 200 29
add shops 30 3000 0 30
add shops 31 3100 50 31
add shops 32 3200 100 32
add shops 33 3300 150 33
add shops 34 3400 200 34
add shops 35 3500 0 35
add shops 36 3600 50 36
add shops 37 3700 100 37
add shops 38 3800 150 38
add shops 39 3900 200 39
add shops 40 4000 0 40
drop shops 4
drop shops 8
drop shops 12
drop shops 16
drop shops 20
drop shops 24
drop shops 28
drop shops 32
drop shops 36
drop shops 40
seg streets 1 100 350 10
seg streets 2 200 450 20
seg streets 3 300 550 30
seg streets 4 400 650 40
seg streets 5 500 750 50
seg streets 6 600 850 60
seg streets 7 700 950 70
seg streets 8 800 1050 80
seg streets 9 900 1150 90
seg streets 10 1000 1250 100
seg streets 11 1100 1350 110
seg streets 12 1200 1450 120
size shops
count shops 0 0 2000 100
sum shops 0 0 2000 100
list shops 0 0 2000 100
near shops 1000 50
nearest shops 3 1000 50
above shops 500 1500 200
top shops 1000 1300
recent shops 3
get shops 7
stab streets 600
stabcount streets 600
";

/// The answers: 363 bytes, which a sink takes by pieces of five in 105 calls.
const TOWN_ANSWERED: &[u8] = b"\
ok\nok\nok\nok\nok\nok\nok\nok\nok\nok\nok\nok\nok\nok\nok\nok\nok\nok\nok\nok\nok\nok\nok\nok\nok\nok\nok\nok\nok\nok\nok\nok\n\
ok\nok\nok\nok\nok\nok\nok\nok\nok\nok\nok\nok\nok\nok\nok\nok\nok\nok\nok\nok\nok\nok\nok\nok\nok\nok\nok\nok\nok\nok\nok\nok\n\
size 30
count 9
sum 74
list 1 2 5 6 7 10 11 15 17
near 10 2500
nearest 10 2500 11 10000 9 32500
above 9 14
top 13 150
recent 39 38 37
get 700 100 7
stab 4 5 6
stabcount 3
";

/// The town's script.
pub fn town() -> &'static [u8] {
    TOWN
}

/// The answers to it.
pub fn town_answered() -> &'static [u8] {
    TOWN_ANSWERED
}
